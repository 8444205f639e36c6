//! Instructions, expressions and bodies of WebAssembly, in the binary format and as flat tokens that stand for trees.
//!
//! # What it promises
//!
//! - An [`Expr`] is seen as its *tree* (`Instrs` of `specs/Tree`), a [`Body`] as its local groups and its tree. Both are kept as flat
//!   tokens, which `tokens` lends in written order with the distance from each opener to its end, at most 2,147,483,647 of them. Each
//!   is *shaped* (`IsShaped` of `specs/Shape`, `AreGroups` of `specs/Bodies`): numbers are in their ranges, at most 20,000 blocks are
//!   open at once, and the groups declare fewer than 2^32 locals.
//! - [`read_body`], [`read_expr`], [`next_expr`] and their `_in` forms are the grammar of a profile (`SpellsBody`, `SpellsExpr` of
//!   `specs/Spelling`), both ways, with the exact first fault of a reader on lists (`specs/Reading`), which stands. What is read
//!   belongs to the profile (`IsOf`). [`Scratch`] does the same for one body after another in one room, and
//!   [`Scratch::written_form`] lends the written form of the body that a code spells, without keeping it; [`Scratch::written_len`] tells how
//!   long it is, and copies nothing of a code that is its own written form.
//! - [`TokenReader`] hands out the tokens of an expression one by one, and is seen as which blocks are open and the labels of the last
//!   `br_table` (`specs/TokenReading`): `next` gives the token that stands at the front, or none at the end that closes no block, or
//!   the token's fault. `open_block`, `close_block` and `part_block` tell it of a block whose opener, whose end or whose `else` the
//!   caller has read itself.
//!   [`next_groups`] reads the local groups in front of a body's instructions. `specs/TokenReadingLaws` ties these to bodies and expressions
//!   that are read whole.
//! - [`encode_body`] and [`encode_expr`] give the written form (`specs/Written`), which spells what it was made of in each profile that
//!   it belongs to. [`append_body`] and [`append_expr`] append it; [`body_len`], [`expr_len`] and [`Token::head_len`] measure it;
//!   [`code_bytes`] copies a spelling that is as long as the written form, which it then is. A vector that any call appends to is as
//!   before where the call is refused.
//!   [`Token::operands`] gives a token's opcode and what stands behind it (`specs/Operands`).
//! - [`refs`] is the set of what a body refers to, [`uses`] the same with a function's own type. [`shift`], [`shift_expr`] and
//!   [`shift_index`] move references (`specs/References`), and overflow exactly where one that moves has no next. [`expr_movement`]
//!   tells that beforehand (`specs/Moves`). Where none overflows, [`shift_in_place`] moves those of a body where it stands,
//!   [`shift_uses`] those of a set, and [`append_shifted`] those of a written form. [`append_shifts`] moves those of a written form by
//!   several at once (`specs/Shifts`), from its bytes alone, where each has a place then.
//! - [`reading_of_code`], [`written_form_of_code`], [`one_spelling_of_code`] and [`moving_of_code`] do nothing: they carry the laws of
//!   reading, writing, the grammar and moving, so that the layer above can prove the same of modules.
//! - A numeric instruction's opcode, type and name come from `specs/Numeric`, a load's or store's from `specs/MemoryOps`, all others
//!   that hold no instructions from the table of `specs/Instructions`; blocks, `else` and `end` have theirs in `specs/Spelling`,
//!   `specs/Written` and `specs/Names`.
//!
//! Nothing recurses over nested blocks at run time: they are kept as flat tokens.
#![tactic(auto)]

mod body;
mod display;
mod expr;
mod fault;
mod immediate_kind;
mod length;
mod memory;
mod minimal_len;
mod numeric;
mod numeric_name;
mod opcode;
mod operands;
mod reader;
mod reading;
mod reencode;
mod reencoder;
mod references;
mod renumber;
mod renumber_code;
mod scratch;
mod shifts;
mod token;
mod token_buffer;
mod token_len;
mod token_reader;
mod types;
mod writing;

pub use body::Body;
pub use expr::Expr;
pub use fault::EncodeFault;
pub use length::{body_len, expr_len};
pub use memory::MemoryOp;
pub use numeric::{NumericOp, NumericType};
pub use operands::Operands;
pub use reader::{
    next_expr, next_expr_in, one_spelling_of_code, read_body, read_body_in, read_expr,
    read_expr_in, reading_of_code,
};
pub use reading::MAX_DEPTH;
pub use references::{Ref, refs, uses};
pub use renumber::{
    Movement, Moving, ShiftFault, expr_movement, moving_of_code, shift, shift_expr, shift_in_place,
    shift_index,
};
pub use renumber_code::{append_shifted, shift_uses};
pub use scratch::Scratch;
pub use shifts::{Shifts, append_shifts};
pub use token::Token;
pub use token_reader::{TokenReader, next_groups};
pub use types::{BlockKind, BlockType, LocalGroup, Profile, ValType};
pub use writing::{
    append_body, append_expr, code_bytes, encode_body, encode_expr, written_form_of_code,
};
