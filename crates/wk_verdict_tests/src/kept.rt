//! Verdicts that are kept.

use std::alloc::Global;
use std::process::Abort;
use std::test::Fail;
use wk_bytes::Items;
use wk_check::{Answer, BodyVerdict, Env, FaultKind, Meter, carry, carry_moved, judge_body};
use wk_module::{FuncType, GlobalType, Moving, Profile, Ref, ValType, read_body_in};

// References find one type of functions, at any index, and one type of globals. There are a table and a memory.
#[derive(Drop)]
struct Alike {
    func: FuncType,
    global: GlobalType,
}

impl Env for Alike {
    ghost use Rattle.wk_verdict_tests.specs.Alike.{alike, alike_of_kind};

    ghost answers = { λ a r. alike a.func a.global r };

    ghost of_kind = { λ a r. alike_of_kind a.func a.global r };

    fn answer(&self, reference: Ref) -> Answer<'_> {
        match reference {
            Ref::Ty(_) => Answer::Ty(&self.func),
            Ref::Func(_) => Answer::Func(&self.func),
            Ref::Global(_) => Answer::Global(self.global),
            Ref::Table | Ref::Memory => Answer::Present,
        }
    }
}

// The verdict of a body, and what is kept of it under another type.
fn kept(alloc: Global, env: &Alike, code: &[u8]) -> Result<(BodyVerdict, BodyVerdict), Fail> {
    let body = read_body_in(alloc, code, Profile::Core)?;
    let verdict = judge_body(env, 0, &body, &mut Meter::new(alloc))?;
    Ok((verdict, carry(env, env, (0, 7), &body, verdict)))
}

// What is kept of the verdict of a body behind a new import of a kind.
fn kept_behind(alloc: Global, env: &Alike, kind: Moving, code: &[u8]) -> Result<BodyVerdict, Fail> {
    let body = read_body_in(alloc, code, Profile::Core)?;
    let verdict = judge_body(env, 0, &body, &mut Meter::new(alloc))?;
    Ok(carry_moved(env, env, (0, 7), kind, 2, &body, verdict))
}

// Looks at what is kept of the verdicts of bodies.
fn keeps(
    rt: &impl Abort,
    alloc: Global,
    env: &Alike,
    rows: &[(&[u8], BodyVerdict)],
) -> Result<(), Fail> {
    for &(code, wanted) in rows {
        assert_eq!(rt; kept(alloc, env, code)?, (wanted, wanted), "{code:?}");
        assert_eq!(rt;
            kept_behind(alloc, env, Moving::Func, code)?,
            wanted,
            "{code:?}"
        );
        assert_eq!(rt;
            kept_behind(alloc, env, Moving::Global, code)?,
            wanted,
            "{code:?}"
        );
    }
    Ok(())
}

#[test]
fn keeps_verdicts(rt: HostRuntime) -> Result<(), Fail> {
    let env = Alike {
        func: FuncType {
            params: Items::new(rt.alloc()),
            results: Items::new(rt.alloc()),
        },
        global: GlobalType {
            val: ValType::I32,
            mutable: false,
        },
    };
    let rows: [(&[u8], BodyVerdict); 3] = [
        (b"\0\x0b", BodyVerdict::Valid),
        (b"\0\x10\x05\x23\x02\x1a\x0b", BodyVerdict::Valid),
        (
            b"\0\x10\x05\x23\x02\x50\x1a\x0b",
            BodyVerdict::Invalid {
                kind: FaultKind::TypeMismatch,
                token: 2,
            },
        ),
    ];
    keeps(&rt, rt.alloc(), &env, &rows)
}
