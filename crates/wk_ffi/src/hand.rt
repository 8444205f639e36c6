//! Handing out what was worked out, into memory that the caller gave.
ghost use Rattle.std.specs.Prelude.{◌≡◌, ◌≤◌, ◌++◌, drop, length};
ghost use Rattle.wk_ffi.specs.Outputs.{fault_code, GivesBoth, GivesText, output};

use crate::code::{Answer, CallFault, Code};

// Puts bytes in front of what an output holds.
fn put_front(out: &mut [u8], bytes: &[u8])
    requires { length bytes.now ≤ length out.old }
    ensures { out.new ≡ bytes.now ++ drop (length bytes.now) out.old }
{
    let (front, _) = out.split_at_mut(bytes.len());
    front.copy_from_slice(bytes);
}

// The code of a call that works nothing out.
fn code_of(fault: CallFault) -> Code
    ensures { result ≡ fault_code fault }
{
    match fault {
        CallFault::Memory => Code::NoMemory,
        CallFault::Argument => Code::BadArgument,
    }
}

/// Hands out the text of an answer, where it fits, and its length. Gives the number of the code.
pub fn hand_text(answer: Result<Answer, CallFault>, text: &mut [u8], text_len: &mut usize) -> u32
    ensures { GivesText answer (output text.old text.new text_len.new) result }
{
    let answer = match answer {
        Ok(answer) => answer,
        Err(fault) => {
            *text_len = 0;
            return code_of(fault).number();
        }
    };
    *text_len = answer.text.len();
    if answer.text.len() > text.len() {
        return Code::TooSmall.number();
    }
    put_front(text, &answer.text);
    answer.code.number()
}

/// Hands out the bytes and the text of an answer, where both fit, and their lengths. Gives the number of the code.
pub fn hand_both(
    answer: Result<Answer, CallFault>,
    bytes: &mut [u8],
    bytes_len: &mut usize,
    text: &mut [u8],
    text_len: &mut usize,
) -> u32
    ensures { GivesBoth answer (output bytes.old bytes.new bytes_len.new)
        (output text.old text.new text_len.new) result }
{
    let answer = match answer {
        Ok(answer) => answer,
        Err(fault) => {
            *bytes_len = 0;
            *text_len = 0;
            return code_of(fault).number();
        }
    };
    *bytes_len = answer.bytes.len();
    *text_len = answer.text.len();
    if answer.bytes.len() > bytes.len() || answer.text.len() > text.len() {
        return Code::TooSmall.number();
    }
    put_front(bytes, &answer.bytes);
    put_front(text, &answer.text);
    answer.code.number()
}
