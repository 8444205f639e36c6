//! A session over a module.
ghost use Rattle.std.specs.Prelude.{◌≡◌, ◌≢◌, ◌<◌, ◌≤◌, ◌-◌, ◌^◌, false, true, Ok, IfOk, IfErr, IfSome, OnOk, OnErr, length, map, option_map, slice_get};
ghost use Rattle.std.specs.Io.KnownBytes.{Appends};
ghost use Rattle.wk_bytes.specs.Frames.{limit};
ghost use Rattle.wk_bytes.specs.Stands.{StandsIn};
ghost use Rattle.wk_bytes.specs.Taken.{TakesFront};
ghost use Rattle.wk_body.specs.Reads.{Reads};
ghost use Rattle.wk_module.specs.declared.types.Parts.{Parts as PartsOf};
ghost use Rattle.wk_module.specs.Modules.{Spells, SpellsNone};
ghost use Rattle.wk_module.specs.Reading.{module_at};
ghost use Rattle.wk_module.specs.Shape.{IsShaped};
ghost use Rattle.wk_module.specs.Writing.{encoded, Fits};
ghost use Rattle.wk_check.specs.Verdict.{module_verdict};
ghost use Rattle.wk_list.specs.Listing.{listing};
ghost use Rattle.wk_list.specs.Taken.{failed_after};
ghost use Rattle.wk_pieces.specs.Overlays.{with_items};
ghost use Rattle.wk_pieces.specs.Pieces.{code_of};
ghost use Rattle.wk_pieces.specs.Recoded.{encoded_with};
ghost use Rattle.wk_session.specs.Edits.{is_decided};
ghost use Rattle.wk_session.specs.Kept.{IsKept, Leads, uses_of};
ghost use Rattle.wk_session.specs.Making.{IsMade, AreMade};
ghost use Rattle.wk_session.specs.Told.{IsTold, AreTold};
ghost use Rattle.wk_session.specs.Written.{Leaves, failures_after_write};
ghost use Rattle.wk_session.specs.Runs.{reply_of, after_one, is_memory, replies_of, after, refused_for_memory, AreUndecided};

use crate::bytes::bytes_of_edit;
use crate::cache::Cache;
use crate::edit::{Edit, EditFault, Reply};
use crate::edits::{
    add_export, add_func, add_global, add_import, add_type, put_body, remove_export, set_custom,
    strip_all, strip_custom,
};
use crate::write::WriteFault;
use std::alloc::Global;
use std::collections::BTreeSet;
use std::marker::Model;
use std::mem;
use wk_bytes::{Items, Out, OutFault, OutOfMemory, ReadFault, ReadKind};
use wk_check::{Meter, Verdict};
use wk_list::{ListFault, Part, Shape, list};
use wk_module::{
    EncodeFault, Module, Parts, Profile, Ref, custom_len, encoded_len, one_module, read_in,
    reading_of_code, section_id, written_form_of_module,
};
use wk_pieces::{Codes, code_contents, put_module};

/// A module under edits, seen by contracts as its plain lists.
#[derive(Debug, Drop)]
pub struct Session {
    alloc: Global,
    module: Module,
    kept: Cache,
}

impl Model for Session {
    ghost use Rattle.wk_module.specs.declared.types.Parts.{Parts as Seen};
    ghost use Rattle.std.specs.Coded.{codes};
    ghost use Rattle.wk_body.specs.Bodies.{coded_body};
    ghost use Rattle.wk_body.specs.TreeCode.{coded_instrs};
    ghost use Rattle.wk_session.specs.Kept.{IsKept};

    ghost Value = { Seen };

    ghost coded = { Prim.hlevel (codes, coded_instrs, coded_body) };

    ghost view = { λ s. s.«module» };

    ghost invariant = { λ s. IsKept s.«module» s.kept };
}

// The parts of a module, which is empty until it is given parts again.
fn take_parts(alloc: Global, module: &mut Module) -> Parts
    ensures value { result ≡ «module».old }
    ensures shaped { IsShaped «module».old }
{
    mem::replace(module, Module::empty(alloc, Profile::Core)).into_parts()
}

// Makes one edit of the parts of a module.
fn edit_parts(alloc: Global, keep: bool, parts: &mut Parts, kept: &mut Cache, edit: &Edit) -> Reply
    requires shaped { IsShaped parts.old }
    requires kept { IsKept parts.old kept.old }
    ensures { Leads keep edit.now parts.old result parts.new kept.new }
{
    let mut meter = Meter::new(alloc);
    match edit {
        Edit::Ty(ty) => add_type(alloc, keep, parts, kept, &mut meter, ty),
        Edit::Import(import) => add_import(alloc, keep, parts, kept, &mut meter, import),
        Edit::Func { ty, code } => add_func(alloc, keep, parts, kept, &mut meter, *ty, code),
        Edit::Body { func, code } => put_body(alloc, keep, parts, kept, &mut meter, *func, code),
        Edit::Global { ty, init } => add_global(alloc, keep, parts, kept, &mut meter, *ty, init),
        Edit::Export(export) => add_export(alloc, keep, parts, kept, export),
        Edit::Unexport(name) => remove_export(alloc, keep, parts, kept, name),
        Edit::SetCustom { name, bytes } => set_custom(alloc, keep, parts, kept, name, bytes),
        Edit::StripCustom(name) => strip_custom(alloc, keep, parts, kept, name),
        Edit::StripAll => strip_all(alloc, keep, parts, kept),
    }
}

impl Session {
    // A session over a module that is not too large, whose verdict may be known, and whose codes may be at hand.
    fn from_module(
        alloc: Global,
        module: Module,
        known: &Option<Verdict>,
        at_hand: Option<Vec<Items<u8>>>,
    ) -> Result<Session, OutOfMemory>
        requires fits { Fits «module» }
        requires known { IfSome known.now (λ v. v ≡ module_verdict «module») }
        requires at_hand { IfSome at_hand (λ cs. cs.items ≡ map code_of («module»).funcs) }
        ensures { IfOk result (λ m. m ≡ «module») }
    {
        let kept = Cache::of(alloc, &module, known, at_hand)?;
        Ok(Session {
            alloc,
            module,
            kept,
        })
    }

    /// A session over the one module of a profile that the bytes spell.
    ///
    /// # Errors
    ///
    /// The first fault from left to right, at its offset in `bytes`, where they spell no module of the profile; `Memory`, at 0,
    /// where a growth is refused.
    pub fn open_in(alloc: Global, bytes: &[u8], profile: Profile) -> Result<Session, ReadFault>
        ensures exact { Reads (λ m. m) result (module_at profile bytes.now) }
        ensures found { IfOk result (λ m. Spells bytes.now m) }
        ensures profile { IfOk result (λ m. m.profile ≡ profile) }
        ensures only { IfOk result
            (λ m. (n : PartsOf) → n.profile ≡ profile → Spells bytes.now n → n ≡ m) }
        ensures refused { IfErr result
            (λ e. e.kind ≢ ReadKind.Memory → SpellsNone profile bytes.now) }
        ensures fits { IfOk result (λ m. Fits m) }
        ensures fault { IfErr result (λ e. StandsIn bytes.now e) }
    {
        let module = read_in(alloc, bytes, profile)?;
        Ok(Session::from_module(alloc, module, &None, None)?)
    }

    /// The same as [`Session::open_in`] of a module whose verdict is known, as `judge_bytes` of `wk_judging` gives it. It is not judged
    /// again: only bodies behind the first invalid one are typed, or all where the fault stands in front of the codes.
    ///
    /// # Errors
    ///
    /// Those of [`Session::open_in`].
    pub fn open_judged(
        alloc: Global,
        bytes: &[u8],
        profile: Profile,
        verdict: Verdict,
    ) -> Result<Session, ReadFault>
        requires { (m : PartsOf) → module_at profile bytes.now ≡ Ok m → verdict ≡ module_verdict m }
        ensures exact { Reads (λ m. m) result (module_at profile bytes.now) }
        ensures found { IfOk result (λ m. Spells bytes.now m) }
        ensures profile { IfOk result (λ m. m.profile ≡ profile) }
        ensures only { IfOk result
            (λ m. (n : PartsOf) → n.profile ≡ profile → Spells bytes.now n → n ≡ m) }
        ensures refused { IfErr result
            (λ e. e.kind ≢ ReadKind.Memory → SpellsNone profile bytes.now) }
        ensures fits { IfOk result (λ m. Fits m) }
        ensures fault { IfErr result (λ e. StandsIn bytes.now e) }
    {
        let judged = read_in(alloc, bytes, profile)?;
        Ok(Session::from_module(alloc, judged, &Some(verdict), None)?)
    }

    /// The same as [`Session::open_in`] of a module of which an outline was read before: the code of each of its functions is at hand in its
    /// written form, without its size, and is kept as it is, where `open_in` writes each body. Its verdict may be known, as for
    /// [`Session::open_judged`].
    ///
    /// # Errors
    ///
    /// Those of [`Session::open_in`].
    pub fn open_outlined(
        alloc: Global,
        bytes: &[u8],
        profile: Profile,
        verdict: Option<Verdict>,
        codes: Vec<Items<u8>>,
    ) -> Result<Session, ReadFault>
        requires verdict { (m : PartsOf) → module_at profile bytes.now ≡ Ok m
            → IfSome verdict (λ v. v ≡ module_verdict m) }
        requires codes { (m : PartsOf) → module_at profile bytes.now ≡ Ok m
            → codes.items ≡ map code_of m.funcs }
        ensures exact { Reads (λ m. m) result (module_at profile bytes.now) }
        ensures found { IfOk result (λ m. Spells bytes.now m) }
        ensures profile { IfOk result (λ m. m.profile ≡ profile) }
        ensures only { IfOk result
            (λ m. (n : PartsOf) → n.profile ≡ profile → Spells bytes.now n → n ≡ m) }
        ensures refused { IfErr result
            (λ e. e.kind ≢ ReadKind.Memory → SpellsNone profile bytes.now) }
        ensures fits { IfOk result (λ m. Fits m) }
        ensures fault { IfErr result (λ e. StandsIn bytes.now e) }
    {
        let whole = match read_in(alloc, bytes, profile) {
            Ok(whole) => whole,
            Err(fault) => {
                drop(codes);
                return Err(fault);
            }
        };
        Ok(Session::from_module(alloc, whole, &verdict, Some(codes))?)
    }

    /// A session over the one module of WebAssembly 1.0 that the bytes spell, as [`Session::open_in`].
    pub fn open(alloc: Global, bytes: &[u8]) -> Result<Session, ReadFault>
        ensures exact { Reads (λ m. m) result (module_at Profile.Core bytes.now) }
        ensures found { IfOk result (λ m. Spells bytes.now m) }
        ensures profile { IfOk result (λ m. m.profile ≡ Profile.Core) }
        ensures only { IfOk result
            (λ m. (n : PartsOf) → n.profile ≡ Profile.Core → Spells bytes.now n → n ≡ m) }
        ensures refused { IfErr result
            (λ e. e.kind ≢ ReadKind.Memory → SpellsNone Profile.Core bytes.now) }
        ensures fits { IfOk result (λ m. Fits m) }
        ensures fault { IfErr result (λ e. StandsIn bytes.now e) }
    {
        Session::open_in(alloc, bytes, Profile::Core)
    }

    /// A session over a module.
    ///
    /// # Errors
    ///
    /// `TooLarge` where its written form is longer than 2,147,483,647 bytes; `Memory` where a growth is refused.
    pub fn of(alloc: Global, module: Module) -> Result<Session, EncodeFault>
        ensures value { IfOk result (λ m. m ≡ «module») }
        ensures fits { IfOk result (λ m. Fits m) }
        ensures refused { IfErr result
            (λ e. e ≢ EncodeFault.Memory → limit < length (encoded «module»)) }
    {
        if encoded_len(&module).is_none() {
            return Err(EncodeFault::TooLarge);
        }
        Ok(Session::from_module(alloc, module, &None, None)?)
    }

    /// The verdict of the module.
    pub fn verdict(&self) -> &Verdict
        ensures { result.now ≡ module_verdict self.now }
    {
        &self.kept.verdict
    }

    /// The length of the written form, in bytes: at most 2,147,483,647.
    pub fn encoded_len(&self) -> u32
        ensures value { result ≡ length (encoded self.now) }
        ensures fits { Fits self.now }
    {
        self.kept.len
    }

    /// Writes the written form, which reading gives back as this module and no other. It takes no memory.
    ///
    /// # Errors
    ///
    /// `Write`, and only where the [`Out`] failed in this call: want of memory is never answered. After it a beginning of the written
    /// form was taken. The session stays as it is.
    pub fn write<W: Out>(&self, out: &mut W) -> Result<(), WriteFault>
        requires { W.failed out.old < 2 ^ 64 - 1 }
        ensures ok { OnOk result (Appends (W.taken out.old) (W.taken out.new) (encoded self.now)) }
        ensures err { IfErr result (Leaves (W.taken out.old) (W.taken out.new) (encoded self.now)) }
        ensures failures { W.failed out.new ≡ failures_after_write (W.failed out.old) result }
        ensures never { IfErr result (λ e. e ≡ WriteFault.Write) }
        ensures spells { Spells (encoded self.now) self.now }
        ensures alone { (n : PartsOf) → n.profile ≡ (self.now).profile → Spells (encoded self.now) n
            → n ≡ self.now }
    {
        // The proof asks what these two say: the written form spells the module, and no other.
        written_form_of_module();
        one_module();
        let pieces = &self.kept.pieces;
        let codes = Codes::of(pieces);
        match put_module(out, self.module.parts(), &pieces.sections, &codes) {
            Ok(()) => Ok(()),
            Err(OutFault) => Err(WriteFault::Write),
        }
    }

    /// Writes the module with other codes in the place of some of its own: `codes` has one for each function that it defines, or nothing
    /// where its own stays. A code stands without its size, and what it spells is not looked at. That form must be no longer than
    /// 2,147,483,647 bytes. It takes no memory.
    ///
    /// With the codes of bodies that is the written form of the module with these bodies (`recoded` of `specs/RecodedLaws`).
    ///
    /// # Errors
    ///
    /// `Write`, and only where the [`Out`] failed in this call: want of memory is never answered. After it a beginning of that form was
    /// taken. The session stays as it is.
    pub fn write_with<W: Out>(
        &self,
        codes: &Vec<Option<Items<u8>>>,
        out: &mut W,
    ) -> Result<(), WriteFault>
        requires failed { W.failed out.old < 2 ^ 64 - 1 }
        requires many { length codes.now.items ≡ length (self.now).funcs }
        requires fits { length (encoded_with self.now
            (with_items (map code_of (self.now).funcs) codes.now.items))
            ≤ limit }
        ensures ok { OnOk result
            (Appends (W.taken out.old) (W.taken out.new)
            (encoded_with self.now
            (with_items (map code_of (self.now).funcs) codes.now.items))) }
        ensures err { IfErr result
            (Leaves (W.taken out.old) (W.taken out.new)
            (encoded_with self.now
            (with_items (map code_of (self.now).funcs) codes.now.items))) }
        ensures failures { W.failed out.new ≡ failures_after_write (W.failed out.old) result }
        ensures never { IfErr result (λ e. e ≡ WriteFault.Write) }
    {
        let pieces = &self.kept.pieces;
        let codes = Codes::with_new(pieces, codes);
        put_module(out, self.module.parts(), &pieces.sections, &codes).map_err(
            |_| WriteFault::Write,
        )
    }

    /// Writes a part of the listing of the module.
    ///
    /// # Errors
    ///
    /// `Write` only where the [`Out`] failed in this call, and else `Memory` where a growth was refused. After either a beginning of
    /// the text was taken. The session stays as it is.
    pub fn list<W: Out>(&self, part: Part, out: &mut W) -> Result<(), ListFault>
        requires { W.failed out.old < 2 ^ 64 - 1 }
        ensures ok { OnOk result
            (Appends (W.taken out.old) (W.taken out.new) (listing self.now part)) }
        ensures err { OnErr result
            (TakesFront (W.taken out.old) (W.taken out.new) (listing self.now part)) }
        ensures failures { W.failed out.new ≡ failed_after (W.failed out.old) result }
    {
        list(self.alloc, self, part, out)
    }

    /// What the function of a code entry refers to, with its own type, each once and in the order of [`Ref`]; or nothing past the last
    /// entry. It takes no memory.
    pub fn uses(&self, entry: u32) -> Option<&BTreeSet<Ref>>
        ensures { option_map (λ s. s.now.keys) result
            ≡ option_map uses_of (slice_get self.now.funcs entry) }
    {
        self.kept.refs.get(entry as usize)
    }

    // Makes one edit, which has to leave a valid module where `keep` says so.
    fn apply_with(&mut self, keep: bool, edit: &Edit) -> Reply
        ensures reply { result ≡ reply_of keep edit.now (is_memory result) self.old }
        ensures module_is { self.new ≡ after_one keep edit.now (is_memory result) self.old }
        ensures made { IsMade edit.now result self.old self.new }
        ensures told { IsTold self.old.profile edit.now result }
        ensures decided { IfErr result
            (λ f. f ≡ EditFault.Memory → is_decided edit.now self.old ≡ false) }
    {
        // The proof asks what these say: what code spells, or where its fault stands, and that an edit's code is bytes.
        reading_of_code();
        bytes_of_edit(edit);
        let mut parts = take_parts(self.alloc, &mut self.module);
        let reply = edit_parts(self.alloc, keep, &mut parts, &mut self.kept, edit);
        self.module = Module::of(parts);
        reply
    }

    /// Makes one edit. A refusal leaves the session as it was.
    ///
    /// # Errors
    ///
    /// The first that is due of `NoSuchFunction`, `NoSuchExport`, `NoSuchCustom`, `BadBytes` with the first fault of the edit's bytes,
    /// `IndexOverflow` and `TooLarge`, in this order; or
    /// `Memory` where a growth was refused. Look-ups take no memory, nor do `StripCustom` and `StripAll`, and a type, an export or a
    /// custom section with which the written form would get too long is refused before any growth.
    pub fn apply(&mut self, edit: &Edit) -> Reply
        ensures reply { result ≡ reply_of false edit.now (is_memory result) self.old }
        ensures module_is { self.new ≡ after_one false edit.now (is_memory result) self.old }
        // What comes to the module is what the edit's bytes spell, and a refusal leaves it as it was.
        ensures made { IsMade edit.now result self.old self.new }
        // Bytes that are refused spell nothing, and the fault stands in them.
        ensures told { IsTold self.old.profile edit.now result }
        // What is decided without memory is never answered by want of it.
        ensures decided { IfErr result
            (λ f. f ≡ EditFault.Memory → is_decided edit.now self.old ≡ false) }
        // Stripping all custom sections is never refused.
        ensures always { edit.now ≡ Edit.StripAll → OnErr result ⊥ }
    {
        self.apply_with(false, edit)
    }

    /// Makes one edit, as [`Session::apply`], but refuses it where the module would be invalid after it.
    ///
    /// # Errors
    ///
    /// Those of [`Session::apply`], and behind them all `WouldBreak` with the first fault of the module that the edit would make.
    pub fn apply_kept(&mut self, edit: &Edit) -> Reply
        ensures reply { result ≡ reply_of true edit.now (is_memory result) self.old }
        ensures module_is { self.new ≡ after_one true edit.now (is_memory result) self.old }
        // What comes to the module is what the edit's bytes spell, and a refusal leaves it as it was.
        ensures made { IsMade edit.now result self.old self.new }
        // Bytes that are refused spell nothing, and the fault stands in them.
        ensures told { IsTold self.old.profile edit.now result }
        // What is decided without memory is never answered by want of it.
        ensures decided { IfErr result
            (λ f. f ≡ EditFault.Memory → is_decided edit.now self.old ≡ false) }
    {
        self.apply_with(true, edit)
    }

    // Makes edits in order, and answers each.
    fn run_with(&mut self, keep: bool, edits: &[Edit]) -> Result<Vec<Reply>, OutOfMemory>
        ensures replies { IfOk result
            (λ rs. rs.items ≡ replies_of keep edits.now (refused_for_memory rs.items) self.old) }
        ensures count { IfOk result (λ rs. length rs.items ≡ length edits.now) }
        ensures module_is { IfOk result
            (λ rs. self.new ≡ after keep edits.now (refused_for_memory rs.items) self.old) }
        ensures made { IfOk result (λ rs. AreMade edits.now rs.items self.old self.new) }
        ensures told { IfOk result (λ rs. AreTold self.old.profile edits.now rs.items) }
        ensures decided { IfOk result
            (λ rs. AreUndecided keep edits.now (refused_for_memory rs.items) self.old) }
        ensures err { OnErr result (self.new ≡ self.old) }
    {
        // The proof asks what this says: what code that is refused spells, and where its fault stands.
        reading_of_code();
        let mut replies = Vec::with_capacity(self.alloc, edits.len())?;
        for edit in edits {
            let reply = self.apply_with(keep, edit);
            replies.push_reserved(reply);
        }
        Ok(replies)
    }

    /// Makes edits in order, each by [`Session::apply`], and answers each.
    ///
    /// # Errors
    ///
    /// Want of memory for the replies alone, whose room comes first: then nothing has changed.
    ///
    /// # Example
    ///
    /// ```rust
    /// let alloc = rt.alloc();
    /// let mut session = Session::open(alloc, b"\0asm\x01\0\0\0")?;
    /// let params = Items::new(alloc);
    /// let results = Items::new(alloc);
    /// let name = Text::from_string(String::from_str(alloc, "main")?);
    /// let mut edits = Vec::new(alloc);
    /// edits.push(Edit::Ty(FuncType { params, results }))?;
    /// edits.push(Edit::Unexport(name))?;
    ///
    /// let replies = session.run(&edits)?;
    /// assert!(rt; replies[0].is_ok());
    /// assert_eq!(rt; replies[1], Err(EditFault::NoSuchExport));
    /// assert_eq!(rt; *session.verdict(), Verdict::Valid);
    /// // The header, and a section of the one type.
    /// assert_eq!(rt; session.encoded_len(), 14);
    /// ```
    pub fn run(&mut self, edits: &[Edit]) -> Result<Vec<Reply>, OutOfMemory>
        ensures replies { IfOk result
            (λ rs. rs.items ≡ replies_of false edits.now (refused_for_memory rs.items) self.old) }
        ensures count { IfOk result (λ rs. length rs.items ≡ length edits.now) }
        ensures module_is { IfOk result
            (λ rs. self.new ≡ after false edits.now (refused_for_memory rs.items) self.old) }
        // What comes to the module is what the bytes of edits spell, and each refusal leaves it as it was.
        ensures made { IfOk result (λ rs. AreMade edits.now rs.items self.old self.new) }
        // Bytes that are refused spell nothing, and the fault stands in them.
        ensures told { IfOk result (λ rs. AreTold self.old.profile edits.now rs.items) }
        // What is decided without memory is never answered by want of it.
        ensures decided { IfOk result
            (λ rs. AreUndecided false edits.now (refused_for_memory rs.items) self.old) }
        ensures err { OnErr result (self.new ≡ self.old) }
    {
        self.run_with(false, edits)
    }

    /// Makes edits in order, each by [`Session::apply_kept`], and answers each. A valid module is valid after any of them.
    ///
    /// # Errors
    ///
    /// Want of memory for the replies alone, whose room comes first: then nothing has changed.
    pub fn run_kept(&mut self, edits: &[Edit]) -> Result<Vec<Reply>, OutOfMemory>
        ensures replies { IfOk result
            (λ rs. rs.items ≡ replies_of true edits.now (refused_for_memory rs.items) self.old) }
        ensures count { IfOk result (λ rs. length rs.items ≡ length edits.now) }
        ensures module_is { IfOk result
            (λ rs. self.new ≡ after true edits.now (refused_for_memory rs.items) self.old) }
        // What comes to the module is what the bytes of edits spell, and each refusal leaves it as it was.
        ensures made { IfOk result (λ rs. AreMade edits.now rs.items self.old self.new) }
        // Bytes that are refused spell nothing, and the fault stands in them.
        ensures told { IfOk result (λ rs. AreTold self.old.profile edits.now rs.items) }
        // What is decided without memory is never answered by want of it.
        ensures decided { IfOk result
            (λ rs. AreUndecided true edits.now (refused_for_memory rs.items) self.old) }
        // What was valid is valid.
        ensures valid { module_verdict self.old ≡ Verdict.Valid
            → module_verdict self.new ≡ Verdict.Valid }
        ensures err { OnErr result (self.new ≡ self.old) }
    {
        self.run_with(true, edits)
    }
}

/// The lengths of the pieces that a listing asks for are those of the kept ones: none is counted.
impl Shape for Session {
    ghost seen = { λ s. s };

    fn parts(&self) -> &Parts {
        self.module.parts()
    }

    fn section_len(&self, id: u8) -> u32 {
        let pieces = &self.kept.pieces;
        if id == section_id::CODE {
            return code_contents(pieces.codes.len(), pieces.codes_len) as u32;
        }
        match pieces.sections.get(id as usize) {
            Some(contents) => contents.len() as u32,
            None => 0,
        }
    }

    fn custom_len(&self, index: usize) -> u32 {
        let custom = &self.module.parts().customs.as_slice()[index];
        custom_len(custom).unwrap_or(0)
    }

    fn body_len(&self, index: usize) -> u32 {
        self.kept.pieces.codes[index].len() as u32
    }
}
