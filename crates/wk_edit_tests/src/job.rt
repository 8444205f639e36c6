//! Modules, scripts, and what comes of them.

ghost use Rattle.std.specs.Prelude.{◌≡◌, ◌<◌, ◌-◌, ◌^◌};

use crate::chopped::Chopped;
use crate::walks::{EMPTY, ONE_TYPE, TWO_RESULTS};
use std::alloc::{AllocError, Global};
use std::test::Fail;
use wk_bytes::{Out, Sink};
use wk_edit::{RunFault, Status, edit, edit_in};
use wk_module::Profile;
use wk_samples::lacking::{NO_BLOCK_TYPE, NO_BLOCK_TYPE_MENDED};
use wk_samples::moving::{ALL_EDITED, ALL_KEPT, ALL_REPORT, KEPT_REPORT, MOVING, OF_EACH_KIND};
use wk_samples::wide::{self, WIDE};

const PADDED_TYPE: &[u8] = b"\0asm\x01\0\0\0\x01\x84\x80\x80\x80\0\x01\x60\0\0";

const BAD_SIZE: &[u8] = b"\0asm\x01\0\0\0\x01\x80\x80\x80\x80\x10";

const BAD_NAME: &[u8] = b"\0asm\x01\0\0\0\0\x02\x01\xff";

// Custom sections `d`, a type, and custom sections `e` and `d`.
const CUSTOMS: &[u8] = b"\0asm\x01\0\0\0\0\x03\x01d\x01\x01\x04\x01\x60\0\0\0\x02\x01e\0\x02\x01d";

const WITHOUT_D: &[u8] = b"\0asm\x01\0\0\0\x01\x04\x01\x60\0\0\0\x02\x01e";

// A module, a script, and what they give: a status, a module and a report.
type Row = (
    &'static [u8],
    &'static [u8],
    Status,
    &'static [u8],
    &'static [u8],
);

const ROWS: [Row; 22] = [
    (
        EMPTY,
        b"type - -",
        Status::Accepted,
        ONE_TYPE,
        b"1 ok\nvalid\n",
    ),
    (EMPTY, b"", Status::Accepted, EMPTY, b"valid\n"),
    (
        EMPTY,
        b"type i32 i32,i32\n",
        Status::Refused,
        TWO_RESULTS,
        b"1 ok\ninvalid V1 TypeArity at section 1 item 0\n",
    ),
    (
        EMPTY,
        b"custom strip d\ntype - -\n",
        Status::Refused,
        ONE_TYPE,
        b"1 refused E3 NoSuchCustom\n2 ok\nvalid\n",
    ),
    (
        CUSTOMS,
        b"custom strip d\n",
        Status::Accepted,
        WITHOUT_D,
        b"1 ok\nvalid\n",
    ),
    (
        b"\0asm\x01\0\0\0\0\x02\x01c\x01\x04\x01\x60\0\0",
        b"custom set c ff",
        Status::Accepted,
        b"\0asm\x01\0\0\0\0\x03\x01c\xff\x01\x04\x01\x60\0\0",
        b"1 ok\nvalid\n",
    ),
    (
        CUSTOMS,
        b"custom set d -\ncustom strip e\ncustom set e 00fF\n",
        Status::Accepted,
        b"\0asm\x01\0\0\0\0\x02\x01d\x01\x04\x01\x60\0\0\0\x02\x01d\0\x04\x01e\0\xff",
        b"1 ok\n2 ok\n3 ok\nvalid\n",
    ),
    (
        CUSTOMS,
        b"strip\nstrip\ncustom strip d\n",
        Status::Refused,
        ONE_TYPE,
        b"1 ok\n2 ok\n3 refused E3 NoSuchCustom\nvalid\n",
    ),
    (PADDED_TYPE, b"", Status::Accepted, ONE_TYPE, b"valid\n"),
    (
        TWO_RESULTS,
        b"\n",
        Status::Refused,
        TWO_RESULTS,
        b"invalid V1 TypeArity at section 1 item 0\n",
    ),
    // an edit that is refused, and a body that leaves an operand
    (
        b"\0asm\x01\0\0\0\x01\x04\x01\x60\0\0\x03\x02\x01\0\x0a\x06\x01\x04\0\x41\0\x0b",
        b"custom strip d\ntype - -\n",
        Status::Refused,
        b"\0asm\x01\0\0\0\x01\x07\x02\x60\0\0\x60\0\0\x03\x02\x01\0\x0a\x06\x01\x04\0\x41\0\x0b",
        b"1 refused E3 NoSuchCustom\n2 ok\ninvalid V15 StackHeight at section 10 item 0 token 1\n",
    ),
    // modules that cannot be read, whatever the script
    (
        BAD_SIZE,
        b"",
        Status::Malformed,
        b"",
        b"malformed R5 IntTooLarge at 0x00000009\n",
    ),
    (
        BAD_NAME,
        b"type - -\n",
        Status::Malformed,
        b"",
        b"malformed R9 BadUtf8 at 0x0000000b\n",
    ),
    (
        b"\0asm\x01\0\0\0\x01\x04\x01\x60",
        b"custom strip d\n",
        Status::Malformed,
        b"",
        b"malformed R3 UnexpectedEnd at 0x0000000a\n",
    ),
    (
        b"",
        b"no edit\n",
        Status::Malformed,
        b"",
        b"malformed R3 UnexpectedEnd at 0x00000000\n",
    ),
    // scripts that cannot be read
    (
        EMPTY,
        b"type i32\n",
        Status::BadScript,
        b"",
        b"script S1 BadWord line 1\n",
    ),
    (
        TWO_RESULTS,
        b"type - -\n\nstrip d\n",
        Status::BadScript,
        b"",
        b"script S1 BadWord line 3\n",
    ),
    (
        EMPTY,
        b"type - -\n\xc3\xa9\n",
        Status::BadScript,
        b"",
        b"script S2 NotAscii line 2\n",
    ),
    (
        CUSTOMS,
        b"custom strip \xe9 d\ntype\n",
        Status::BadScript,
        b"",
        b"script S2 NotAscii line 1\n",
    ),
    (
        EMPTY,
        b"\n\n\n\n\n\n\n\n\n\n\n\xe9",
        Status::BadScript,
        b"",
        b"script S2 NotAscii line 12\n",
    ),
    // a call that moves behind an import
    (
        b"\0asm\x01\0\0\0\x01\x04\x01\x60\0\0\x03\x02\x01\0\x0a\x06\x01\x04\0\x10\0\x0b",
        b"import func env f 0\n",
        Status::Accepted,
        b"\0asm\x01\0\0\0\x01\x04\x01\x60\0\0\x02\x09\x01\x03env\x01f\0\0\x03\x02\x01\0\x0a\x06\x01\x04\0\x10\x01\x0b",
        b"1 ok\nvalid\n",
    ),
    // an edit of each kind
    (
        MOVING,
        OF_EACH_KIND,
        Status::Refused,
        ALL_EDITED,
        ALL_REPORT,
    ),
];

// Where the module has to stay valid.
const KEPT: [Row; 4] = [
    (
        EMPTY,
        b"type - -\n\ntype i32 i32,i32\n",
        Status::Refused,
        ONE_TYPE,
        b"1 ok\n2 refused E7 WouldBreak V1 TypeArity at section 1 item 1\nvalid\n",
    ),
    (
        TWO_RESULTS,
        b"strip\n",
        Status::Refused,
        TWO_RESULTS,
        b"1 refused E7 WouldBreak V1 TypeArity at section 1 item 0\n\
            invalid V1 TypeArity at section 1 item 0\n",
    ),
    (
        CUSTOMS,
        b"custom strip d\n",
        Status::Accepted,
        WITHOUT_D,
        b"1 ok\nvalid\n",
    ),
    (MOVING, OF_EACH_KIND, Status::Refused, ALL_KEPT, KEPT_REPORT),
];

// In the other profile.
const EXTENDED: [Row; 2] = [
    (
        NO_BLOCK_TYPE,
        b"strip\ntype i32 i32",
        Status::Accepted,
        NO_BLOCK_TYPE_MENDED,
        b"1 ok\n2 ok\nvalid\n",
    ),
    (
        WIDE,
        wide::OF_EACH_KIND,
        Status::Refused,
        wide::ALL_EDITED,
        wide::ALL_REPORT,
    ),
];

// In the other profile, where the module has to be valid.
const EXTENDED_KEPT: [Row; 2] = [
    (
        NO_BLOCK_TYPE,
        b"strip\ntype i32 i32",
        Status::Refused,
        NO_BLOCK_TYPE_MENDED,
        b"1 refused E7 WouldBreak V2 UnknownType at section 10 item 0 token 1\n2 ok\nvalid\n",
    ),
    (
        WIDE,
        wide::OF_EACH_KIND,
        Status::Refused,
        wide::ALL_KEPT,
        wide::KEPT_REPORT,
    ),
];

// Rows, and how their scripts are run.
#[derive(Clone, Copy)]
struct Table {
    profile: Profile,
    keep: bool,
    rows: &'static [Row],
}

static TABLES: [Table; 4] = [
    Table {
        profile: Profile::Core,
        keep: false,
        rows: &ROWS,
    },
    Table {
        profile: Profile::Core,
        keep: true,
        rows: &KEPT,
    },
    Table {
        profile: Profile::Extended,
        keep: false,
        rows: &EXTENDED,
    },
    Table {
        profile: Profile::Extended,
        keep: true,
        rows: &EXTENDED_KEPT,
    },
];

impl Table {
    fn edit<W: Out, X: Out>(
        &self,
        alloc: Global,
        row: &Row,
        out: &mut W,
        report: &mut X,
    ) -> Result<Status, RunFault>
        requires out { W.failed out.old < 2 ^ 64 - 1 }
        requires report { X.failed report.old < 2 ^ 64 - 1 }
    {
        let (input, script, ..) = *row;
        match self.profile {
            Profile::Core => edit(alloc, input, script, self.keep, out, report),
            Profile::Extended => {
                edit_in(alloc, input, script, self.keep, self.profile, out, report)
            }
        }
    }

    // Whether the module and the report of a row are put behind what the outputs hold.
    fn appends(&self, alloc: Global, row: &Row) -> Result<bool, AllocError> {
        let (_, _, status, whole, text) = *row;
        let mut out = Sink::new(Vec::from_slice(alloc, b"a")?);
        let mut report = Sink::new(Vec::from_slice(alloc, b"b")?);
        let answer = self.edit(alloc, row, &mut out, &mut report);
        let is_written = out.into_inner().strip_prefix(b"a") == Some(whole);
        let is_told = report.into_inner().strip_prefix(b"b") == Some(text);
        Ok(answer == Ok(status) && is_written && is_told)
    }

    // The script of the first row that does otherwise.
    fn wrong_append(&self, alloc: Global) -> Option<&'static [u8]> {
        for row in self.rows {
            if self.appends(alloc, row) != Ok(true) {
                return Some(row.1);
            }
        }
        None
    }

    // Puts the module to an output that fails after so many calls. Answers whether it took all. Where it took neither all nor a
    // beginning, or the report took something that it may not, it answers nothing.
    fn is_module_taken(&self, alloc: Global, row: &Row, mut out: Chopped) -> Option<bool>
        requires { ⟦<Chopped as Out>⟧.failed out ≡ 0 }
    {
        let (_, _, status, whole, text) = *row;
        let mut report = Sink::new(Vec::new(alloc));
        let answer = self.edit(alloc, row, &mut out, &mut report);
        let (taken, told) = (out.taken(), report.into_inner());
        let is_whole = taken.len() == whole.len()
            && answer == Ok(status)
            && told.as_slice() == text;
        let is_begun = out.failures() == 1 && answer == Err(RunFault::Out) && told.is_empty();
        if whole.starts_with(taken) && (is_whole || is_begun) {
            Some(is_whole)
        } else {
            None
        }
    }

    // The same of the report, before which the module is written whole.
    fn is_report_taken(&self, alloc: Global, row: &Row, mut report: Chopped) -> Option<bool>
        requires { ⟦<Chopped as Out>⟧.failed report ≡ 0 }
    {
        let (_, _, status, whole, text) = *row;
        let mut out = Sink::new(Vec::new(alloc));
        let answer = self.edit(alloc, row, &mut out, &mut report);
        let (taken, written) = (report.taken(), out.into_inner());
        let is_whole = taken.len() == text.len() && answer == Ok(status);
        let is_begun = report.failures() == 1 && answer == Err(RunFault::Report);
        if written.as_slice() == whole && text.starts_with(taken) && (is_whole || is_begun) {
            Some(is_whole)
        } else {
            None
        }
    }

    // After how many calls an output of the module that takes so many bytes at each never fails.
    fn module_calls(&self, alloc: Global, row: &Row, most: usize) -> Option<usize> {
        for calls in 0..=row.3.len() {
            if self.is_module_taken(alloc, row, Chopped::new(alloc, most, calls))? {
                return Some(calls);
            }
        }
        None
    }

    // The same of the report.
    fn report_calls(&self, alloc: Global, row: &Row, most: usize) -> Option<usize> {
        for calls in 0..=row.4.len() {
            if self.is_report_taken(alloc, row, Chopped::new(alloc, most, calls))? {
                return Some(calls);
            }
        }
        None
    }

    // At one, two or seven bytes a call the report of a row takes as many calls as its bytes fill, and the module, which goes out in
    // pieces, as many or more, but no more than it has bytes.
    fn leaves_beginnings(&self, alloc: Global, row: &Row) -> bool {
        let (_, _, _, whole, text) = *row;
        for most in [1, 2, 7] {
            let is_fair = match self.module_calls(alloc, row, most) {
                Some(calls) => whole.len().div_ceil(most) <= calls && calls <= whole.len(),
                None => false,
            };
            if !is_fair || self.report_calls(alloc, row, most) != Some(text.len().div_ceil(most)) {
                return false;
            }
        }
        true
    }

    // The script of the first row that does otherwise.
    fn wrong_beginning(&self, alloc: Global) -> Option<&'static [u8]> {
        for row in self.rows {
            if !self.leaves_beginnings(alloc, row) {
                return Some(row.1);
            }
        }
        None
    }
}

// The script of the first row of all tables that does otherwise.
fn wrong_append(alloc: Global) -> Option<&'static [u8]> {
    for table in &TABLES {
        let wrong = table.wrong_append(alloc);
        if wrong.is_some() {
            return wrong;
        }
    }
    None
}

fn wrong_beginning(alloc: Global) -> Option<&'static [u8]> {
    for table in &TABLES {
        let wrong = table.wrong_beginning(alloc);
        if wrong.is_some() {
            return wrong;
        }
    }
    None
}

#[test]
fn edits(rt: HostRuntime) -> Result<(), Fail> {
    assert_eq!(rt; wrong_append(rt.alloc()), None);
    Ok(())
}

#[test]
fn stops_where_an_output_fails(rt: HostRuntime) -> Result<(), Fail> {
    assert_eq!(rt; wrong_beginning(rt.alloc()), None);
    Ok(())
}
