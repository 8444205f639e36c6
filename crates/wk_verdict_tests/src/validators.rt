//! Modules that are judged one after the other by a `Validator`, and by a call of their own.

use std::alloc::Global;
use std::process::Abort;
use std::test::Fail;
use wk_judging::{Validator, Verdict, judge_bytes};
use wk_module::Profile;

// Valid, invalid and malformed modules, which leave operands, blocks, locals, items, names, references and faults to the next.
const MODULES: [&[u8]; 19] = [
    // no sections
    b"\0asm\x01\0\0\0",
    // valid: functions of two types, the second with locals of two groups, a memory and a data segment
    b"\0asm\x01\0\0\0\x01\x08\x02\x60\0\0\x60\0\x01\x7f\x03\x03\x02\0\x01\x05\x03\x01\0\x01\x0a\x0f\x02\x02\0\x0b\x0a\x02\x02\x7f\x01\x7e\x10\0\x41\x08\x0b\x0b\x07\x01\0\x41\0\x0b\x01\xaa",
    // valid: blocks in one another, and a branch out of them
    b"\0asm\x01\0\0\0\x01\x06\x01\x60\x01\x7f\x01\x7f\x03\x02\x01\0\x0a\x12\x01\x10\0\x02\x40\x03\x40\x20\0\x0e\x01\0\x01\x0b\x0b\x20\0\x0b",
    // valid: an import of a function and of a global, which an initialiser sees
    b"\0asm\x01\0\0\0\x01\x04\x01\x60\0\0\x02\x0c\x02\x01a\x01b\0\0\0\0\x03\x7f\0\x06\x06\x01\x7f\0\x23\0\x0b",
    // valid with multi-value alone: a type of two results
    b"\0asm\x01\0\0\0\x01\x06\x01\x60\0\x02\x7f\x7f\x03\x02\x01\0\x0a\x08\x01\x06\0\x41\0\x41\0\x0b",
    // valid: a section of each id
    b"\0asm\x01\0\0\0\x01\x08\x02\x60\0\0\x60\x01\x7f\0\x02\x0c\x02\x01a\x01b\0\0\0\0\x03\x7f\0\x03\x02\x01\x01\x04\x04\x01\x70\0\x01\x05\x03\x01\0\x01\x06\x06\x01\x7f\0\x41\0\x0b\x07\x05\x01\x01a\0\0\x08\x01\0\x09\x07\x01\0\x41\0\x0b\x01\x01\x0a\x04\x01\x02\0\x0b\x0b\x06\x01\0\x41\0\x0b\0",
    // valid: an export of the same name
    b"\0asm\x01\0\0\0\x05\x03\x01\0\x01\x07\x05\x01\x01a\x02\0",
    // invalid: a type, a function, a table, a memory and two globals that the module does not have
    b"\0asm\x01\0\0\0\x03\x02\x01\0\x0a\x04\x01\x02\0\x0b",
    b"\0asm\x01\0\0\0\x08\x01\0",
    b"\0asm\x01\0\0\0\x09\x06\x01\0\x41\0\x0b\0",
    b"\0asm\x01\0\0\0\x0b\x06\x01\0\x41\0\x0b\0",
    b"\0asm\x01\0\0\0\x07\x05\x01\x01a\x03\0",
    b"\0asm\x01\0\0\0\x06\x06\x01\x7f\0\x23\0\x0b",
    // invalid: an operand is left
    b"\0asm\x01\0\0\0\x01\x04\x01\x60\0\0\x03\x02\x01\0\x0a\x06\x01\x04\0\x41\0\x0b",
    // invalid: an operand is missing, in two blocks
    b"\0asm\x01\0\0\0\x01\x04\x01\x60\0\0\x03\x02\x01\0\x0a\x0b\x01\x09\0\x02\x40\x02\x40\x1a\x0b\x0b\x0b",
    // invalid: a local that is not there
    b"\0asm\x01\0\0\0\x01\x04\x01\x60\0\0\x03\x02\x01\0\x0a\x07\x01\x05\0\x20\0\x1a\x0b",
    // invalid: an initialiser of another type, in front of a body that leaves an operand
    b"\0asm\x01\0\0\0\x01\x04\x01\x60\0\0\x03\x02\x01\0\x06\x06\x01\x7e\0\x41\0\x0b\x0a\x06\x01\x04\0\x41\0\x0b",
    // malformed: a body ends in a block, behind an operand
    b"\0asm\x01\0\0\0\x01\x04\x01\x60\0\0\x03\x02\x01\0\x0a\x08\x01\x06\0\x41\0\x02\x40\x0b",
    // malformed: a data section is cut, behind a valid body
    b"\0asm\x01\0\0\0\x01\x04\x01\x60\0\0\x03\x02\x01\0\x0a\x04\x01\x02\0\x0b\x0b\x01\x01",
];

// The module is judged as by a call of its own.
fn judges_alike(
    rt: &impl Abort,
    alloc: Global,
    validator: &mut Validator,
    bytes: &[u8],
    profile: Profile,
) -> Result<(), Fail> {
    let answer = validator.judge_bytes(alloc, bytes, profile);
    assert_eq!(rt; answer, judge_bytes(alloc, bytes, profile), "{bytes:?}");
    Ok(())
}

// Each module behind each other, and behind itself, by one validator for all and by one that gave its room back.
fn judges_each_behind_each(rt: &impl Abort, alloc: Global, profile: Profile) -> Result<(), Fail> {
    let mut used = Validator::new(alloc);
    for first in MODULES {
        for second in MODULES {
            let mut shrunk = Validator::new(alloc);
            for bytes in [first, second] {
                judges_alike(rt, alloc, &mut used, bytes, profile)?;
                judges_alike(rt, alloc, &mut shrunk, bytes, profile)?;
                shrunk.shrink(alloc);
            }
        }
    }
    Ok(())
}

#[test]
fn modules_are_of_each_kind(rt: HostRuntime) -> Result<(), Fail> {
    for (index, bytes) in MODULES.iter().enumerate() {
        let answer = judge_bytes(rt.alloc(), bytes, Profile::Extended);
        let is_right = match answer {
            Ok(Verdict::Valid) => index < 7,
            Ok(Verdict::Invalid(_)) => 7 <= index && index < 17,
            Err(_) => 17 <= index,
        };
        assert!(&rt; is_right, "{bytes:?}");
    }
    Ok(())
}

#[test]
fn judges_as_single_calls(rt: HostRuntime) -> Result<(), Fail> {
    judges_each_behind_each(&rt, rt.alloc(), Profile::Core)?;
    judges_each_behind_each(&rt, rt.alloc(), Profile::Extended)
}

#[test]
fn profile_is_that_of_the_call(rt: HostRuntime) -> Result<(), Fail> {
    let alloc = rt.alloc();
    let mut validator = Validator::new(alloc);
    let two_results = MODULES[4];
    for _ in 0..2 {
        let answer = validator.judge_bytes(alloc, two_results, Profile::Extended)?;
        assert_eq!(rt; answer, Verdict::Valid);
        let answer = validator.judge_bytes(alloc, two_results, Profile::Core)?;
        assert!(rt; answer != Verdict::Valid);
    }
    Ok(())
}
