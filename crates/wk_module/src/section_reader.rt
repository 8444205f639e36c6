//! Reading the lists of a module section by section, where its bodies are the caller's to read and its custom sections are let go.

ghost use Rattle.std.specs.Prelude.{◌≡◌, ◌≢◌, ◌<◌, ◌-◌, ◌^◌, ℕ, List, [], length, Ok, Err, All, IfOk, IfSome, OnOk, IfErr, OnErr, MatchResult};
ghost use Rattle.wk_bytes.specs.Frames.{sections_of};
ghost use Rattle.wk_bytes.specs.LebLaws.{IsBytes};
ghost use Rattle.wk_bytes.specs.Raw.{raw_view};
ghost use Rattle.wk_bytes.specs.Span.{fault};
ghost use Rattle.wk_bytes.specs.Stands.{ItemStands, LiesIn, Stands, StandsIn, StandsOrMemory, contents_of};
ghost use Rattle.wk_body.specs.Reads.{FailsAs, Parses, Reads};
ghost use Rattle.wk_body.specs.Vectors.{items_at};
ghost use Rattle.wk_module.specs.Formats.{bytes_at};
ghost use Rattle.wk_module.specs.Items.{code_at};
ghost use Rattle.wk_module.specs.Listed.{listed, AreNumbered};
ghost use Rattle.wk_module.specs.ListReading.{GoesTo, IsUnderway, front_of, front_read, lists_read, opened_at, rest_read, with_listed};
ghost use Rattle.wk_module.specs.Reading.{section_end};
ghost use Rattle.wk_module.specs.Sections.{codes_at, no_lists};

use crate::lists::Lists;
use crate::module_read::{PartialModule, laws_of_sections};
use crate::section_id;
use crate::vector_read::{Readable, at_end};
use std::alloc::Global;
use std::marker::Model;
use wk_body::{Body, Profile, Scratch};
use wk_bytes::{Cursor, RawSection, ReadFault, ReadKind, Sections};

/// The lists of a module of which some sections are read, and the sections that are left.
#[derive(Debug, Drop)]
pub struct SectionReader<'a> {
    so_far: PartialModule,
    left: Sections<'a>,
    profile: Profile,
}

impl<'a> Model for SectionReader<'a> {
    ghost use Rattle.std.specs.Coded.{codes};
    ghost use Rattle.wk_body.specs.Bodies.{coded_body};
    ghost use Rattle.wk_body.specs.TreeCode.{coded_instrs};
    ghost use Rattle.wk_module.specs.ListReading.{PartlyRead};

    ghost Value = { PartlyRead };

    ghost coded = { Prim.hlevel (codes, coded_instrs, coded_body) };

    ghost view = { λ r. record { profile = r.profile; lists = r.so_far.lists; left = r.left } };

    ghost use Rattle.wk_module.specs.ListReading.{IsUnderway};

    ghost invariant = { λ r. IsUnderway r.so_far.lists r.left };
}

// Bytes are below 256. It does nothing.
fn are_bytes(bytes: &[u8])
    ensures { IsBytes bytes.now }
{}

impl PartialModule {
    // Reads one more section, and keeps nothing of a custom one.
    #[tactic(auto, unfolding(crate::specs::ListReading::listed_by))]
    fn read_listed(
        &mut self,
        alloc: Global,
        scratch: &mut Scratch,
        profile: Profile,
        section: &RawSection<'_>,
    ) -> Result<(), ReadFault>
        ensures read { Reads (λ u. self.new.lists) result
            (with_listed profile self.old.lists (raw_view section.now)) }
        ensures codes { section.now.id ≢ 10
            → IfOk result (λ u. self.new.lists.codes ≡ self.old.lists.codes) }
        ensures few { AreNumbered self.old.lists → IfOk result (λ u. AreNumbered self.new.lists) }
    {
        are_bytes(section.contents);
        match section.id {
            section_id::TYPE..=section_id::DATA => self.read_known_section(
                alloc, scratch, profile, section,
            ),
            _ => {
                let mut cursor = section.cursor();
                let _name = cursor.name()?;
                Ok(())
            }
        }
    }

    // Takes sections of those that are left, and reads them, up to the code section, which it gives unread, or to the end.
    #[tactic(auto, unfolding(crate::specs::ListReading::lists_read, crate::specs::ListReading::front_read))]
    fn read_up_to_code<'a>(
        &mut self,
        alloc: Global,
        scratch: &mut Scratch,
        profile: Profile,
        left: &mut Sections<'a>,
    ) -> Result<Option<RawSection<'a>>, ReadFault>
        requires { IsUnderway self.old.lists left.old }
        ensures exact { Reads
            (λ code. front_of
            (record { profile = profile; lists = self.new.lists; left = left.new }) code)
            result (front_read profile self.old.lists left.old) }
        ensures goes { MatchResult result
            (λ code. GoesTo (record { profile = profile; lists = self.old.lists; left = left.old })
            (record { profile = profile; lists = self.new.lists; left = left.new }) code)
            (λ e. FailsAs e e.kind (lists_read profile self.old.lists left.old)) }
        ensures underway { OnOk result (IsUnderway self.new.lists left.new) }
    {
        while let Some(section) = left.next() {
            let section = section?;
            if section.id == section_id::CODE {
                return Ok(Some(section));
            }
            self.read_listed(alloc, scratch, profile, &section)?;
        }
        Ok(None)
    }

    // Takes each section that is left, and reads it.
    #[tactic(auto, unfolding(crate::specs::ListReading::lists_read))]
    fn read_left(
        &mut self,
        alloc: Global,
        scratch: &mut Scratch,
        profile: Profile,
        left: &mut Sections<'_>,
    ) -> Result<(), ReadFault>
        requires { IsUnderway self.old.lists left.old }
        ensures read { Reads (λ u. self.new.lists) result
            (lists_read profile self.old.lists left.old) }
        ensures underway { OnOk result (IsUnderway self.new.lists left.new) }
        ensures left { OnOk result (left.new ≡ []) }
    {
        while let Some(section) = left.next() {
            self.read_listed(alloc, scratch, profile, &section?)?;
        }
        Ok(())
    }

    // The lists that are read, but for codes.
    fn lists(&self, profile: Profile) -> Lists<'_>
        ensures lists { listed result ≡ record self.now.lists { codes = [] } }
        ensures profile { result.profile ≡ profile }
    {
        Lists {
            profile,
            ..Lists::of(&self.parts, self.indices.as_slice())
        }
    }
}

impl<'a> SectionReader<'a> {
    /// The sections of these bytes, of which none is read yet. It takes no memory.
    pub fn new(alloc: Global, bytes: &'a [u8], profile: Profile) -> SectionReader<'a>
        ensures { result
            ≡ record { profile = profile; lists = no_lists; left = sections_of bytes.now } }
    {
        SectionReader {
            so_far: PartialModule::new(alloc, profile),
            left: Sections::new(bytes),
            profile,
        }
    }

    /// Reads up to the code section, which it gives unread, or to the end where there is none. Then functions that were declared
    /// have no codes, and the bytes spell no module.
    ///
    /// # Errors
    ///
    /// The first fault of the sections in front of it, or `Memory` at 0 where a growth was refused. The fault stands in the input in
    /// which the sections lie, as [`Sections`] says of them; there the code section and those behind it lie too.
    pub fn up_to_code(
        self,
        alloc: Global,
        scratch: &mut Scratch,
    ) -> Result<(SectionReader<'a>, Option<RawSection<'a>>), ReadFault>
        ensures exact { Reads (λ r. front_of r.0 r.1) result
            (front_read self.entry.profile self.entry.lists self.entry.left) }
        ensures goes { MatchResult result (λ r. GoesTo self.entry r.0 r.1)
            (λ e. FailsAs e e.kind (rest_read self.entry)) }
        ensures within { (input : List ℕ) → All (ItemStands input) self.entry.left
            → IfOk result
            (λ r. All (ItemStands input) r.0.left
            × IfSome r.1 (λ s. LiesIn input (raw_view s))) }
        ensures fault { (input : List ℕ) → All (ItemStands input) self.entry.left
            → IfErr result (λ e. StandsIn input e) }
    {
        // The proof asks for what this says of sections.
        laws_of_sections();
        let SectionReader {
            mut so_far,
            mut left,
            profile,
        } = self;
        match so_far.read_up_to_code(alloc, scratch, profile, &mut left) {
            Ok(code) => {
                let reader = SectionReader {
                    so_far,
                    left,
                    profile,
                };
                Ok((reader, code))
            }
            Err(fault) => {
                drop(so_far);
                Err(fault)
            }
        }
    }

    /// Reads all sections that are left, a code section among them if there is one: its codes are kept, and [`lists`] does not
    /// lend them.
    ///
    /// [`lists`]: SectionReader::lists
    ///
    /// # Errors
    ///
    /// Their first fault, or `Memory` at 0 where a growth was refused. The fault stands in the input in which the sections lie, as
    /// [`Sections`] says of them.
    pub fn to_end(
        self,
        alloc: Global,
        scratch: &mut Scratch,
    ) -> Result<SectionReader<'a>, ReadFault>
        ensures read { Reads (λ r. r.lists) result (rest_read self.entry) }
        ensures profile { IfOk result (λ r. r.profile ≡ self.entry.profile) }
        ensures left { IfOk result (λ r. r.left ≡ []) }
        ensures fault { (input : List ℕ) → All (ItemStands input) self.entry.left
            → IfErr result (λ e. StandsIn input e) }
    {
        // The proof asks for what this says of sections.
        laws_of_sections();
        let SectionReader {
            mut so_far,
            mut left,
            profile,
        } = self;
        if let Err(fault) = so_far.read_left(alloc, scratch, profile, &mut left) {
            drop(so_far);
            return Err(fault);
        }
        Ok(SectionReader {
            so_far,
            left,
            profile,
        })
    }

    /// The lists that are read, but for codes. Each holds fewer items than there are numbers of 32 bits.
    pub fn lists(&self) -> Lists<'_>
        ensures lists { listed result ≡ record self.now.lists { codes = [] } }
        ensures profile { result.profile ≡ self.now.profile }
        ensures few { AreNumbered (listed result) }
    {
        self.so_far.lists(self.profile)
    }

    /// The lists that are read, by themselves: the bytes that were read are let go. The sections that are left are not looked at.
    pub fn into_lists(self) -> OwnedLists
        ensures { result ≡ record { profile = self.entry.profile; lists = self.entry.lists } }
    {
        let SectionReader {
            so_far,
            profile,
            ..
        } = self;
        OwnedLists { so_far, profile }
    }
}

/// The lists of a module of which some sections were read, without the bytes that they were read of.
#[derive(Debug, Drop)]
pub struct OwnedLists {
    so_far: PartialModule,
    profile: Profile,
}

impl Model for OwnedLists {
    ghost use Rattle.std.specs.Coded.{codes};
    ghost use Rattle.wk_body.specs.Bodies.{coded_body};
    ghost use Rattle.wk_body.specs.TreeCode.{coded_instrs};
    ghost use Rattle.wk_module.specs.ListReading.{AllRead};

    ghost Value = { AllRead };

    ghost coded = { Prim.hlevel (codes, coded_instrs, coded_body) };

    ghost view = { λ r. record { profile = r.profile; lists = r.so_far.lists } };

    ghost use Rattle.wk_module.specs.Listed.{AreNumbered};

    ghost invariant = { λ r. AreNumbered r.so_far.lists };
}

impl OwnedLists {
    /// The lists, but for codes. Each holds fewer items than there are numbers of 32 bits.
    pub fn lists(&self) -> Lists<'_>
        ensures lists { listed result ≡ record self.now.lists { codes = [] } }
        ensures profile { result.profile ≡ self.now.profile }
        ensures few { AreNumbered (listed result) }
    {
        self.so_far.lists(self.profile)
    }
}

/// The codes of a code section, one after the other (5.5.13).
#[derive(Debug, Drop)]
pub struct CodeReader<'a> {
    cursor: Cursor<'a>,
}

impl<'a> Model for CodeReader<'a> {
    ghost use Rattle.wk_bytes.specs.Span.{Span};

    ghost Value = { Span };

    ghost view = { λ r. r.cursor };
}

impl<'a> CodeReader<'a> {
    /// Begins to read a code section, where that many functions were declared. The id of the section is not looked at.
    ///
    /// # Errors
    ///
    /// `UnexpectedEnd`, `IntTooLong` or `IntTooLarge` where its count is spelled badly; `FuncCodeCount`, at the first byte of its
    /// contents, where it is another one.
    #[tactic(auto, unfolding(crate::specs::Sections::codes_at, crate::specs::ListReading::opened_at))]
    pub fn open(section: &RawSection<'a>, funcs: usize) -> Result<CodeReader<'a>, ReadFault>
        ensures read { (profile : Profile)
            → MatchResult result
            (λ r. codes_at profile funcs (section_end (raw_view section.now))
            section.now.contents.now
            ≡ items_at (code_at profile) funcs r.end r.rest)
            (λ e. FailsAs e e.kind
            (codes_at profile funcs (section_end (raw_view section.now))
            section.now.contents.now)) }
        ensures exact { MatchResult result
            (λ r. opened_at funcs (section_end (raw_view section.now)) section.now.contents.now
            ≡ Ok r.rest)
            (λ e. opened_at funcs (section_end (raw_view section.now)) section.now.contents.now
            ≡ Err e) }
        ensures end { IfOk result (λ r. r.end ≡ section_end (raw_view section.now)) }
        ensures few { IfOk result (λ r. funcs < 2 ^ 32) }
        ensures stands { IfErr result (λ e. Stands (contents_of (raw_view section.now)) e) }
    {
        let mut cursor = section.cursor();
        let mismatch = cursor.fault(ReadKind::FuncCodeCount);
        let count = cursor.u32()?;
        if count as usize != funcs {
            return Err(mismatch);
        }
        Ok(CodeReader { cursor })
    }

    /// Takes the bytes of the next code, behind its size. The offsets of faults in them are those of the whole input.
    ///
    /// # Errors
    ///
    /// `UnexpectedEnd`, `IntTooLong` or `IntTooLarge` where its size is spelled badly; `UnexpectedEnd` at the code where there are
    /// fewer bytes. After a refusal the reader stands where it stood.
    #[tactic(auto, unfolding(crate::specs::Formats::bytes_at))]
    pub fn next_code(&mut self) -> Result<Cursor<'a>, ReadFault>
        ensures exact { MatchResult result
            (λ code. bytes_at self.old.end self.old.rest ≡ Ok (code.rest, self.new.rest))
            (λ e. bytes_at self.old.end self.old.rest ≡ Err e) }
        ensures fault { IfErr result (λ e. FailsAs e e.kind (bytes_at self.old.end self.old.rest)) }
        ensures place { IfOk result (λ code. code.end ≡ self.old.end - length self.new.rest) }
        ensures end { OnOk result (self.new.end ≡ self.old.end) }
        ensures stands { IfErr result (λ e. Stands self.old e) }
        ensures left { OnErr result (self.new ≡ self.old) }
    {
        let mut cursor = self.cursor.ahead();
        let size = cursor.u32()?;
        let at = cursor.at();
        let code = cursor.take(size)?;
        self.cursor = cursor;
        Ok(Cursor::within(code, at))
    }

    /// Reads the next code, of a profile.
    ///
    /// # Errors
    ///
    /// Its first fault, at its offset in the whole input, or `Memory` at 0 where a growth was refused. After a refusal the reader
    /// stands where it stood.
    #[tactic(auto, unfolding(crate::specs::Items::code_at))]
    pub fn next(
        &mut self,
        alloc: Global,
        scratch: &mut Scratch,
        profile: Profile,
    ) -> Result<Body, ReadFault>
        ensures read { Parses (λ b. b) (code_at profile) self.old result self.new }
        ensures stands { IfErr result (λ e. StandsOrMemory self.old e) }
        ensures left { OnErr result (self.new ≡ self.old) }
    {
        let mut ahead = CodeReader {
            cursor: self.cursor.ahead(),
        };
        let code = ahead.next_code()?;
        let body = scratch.read_body(alloc, &code, profile)?;
        *self = ahead;
        Ok(body)
    }

    /// The section ends here.
    ///
    /// # Errors
    ///
    /// `SectionSize` at the first byte that is left over.
    pub fn end(&self) -> Result<(), ReadFault>
        ensures exact { MatchResult result (λ u. self.now.rest ≡ [])
            (λ e. (e ≡ fault ReadKind.SectionSize self.now.end self.now.rest)
            × (self.now.rest ≢ [])) }
        ensures stands { IfErr result (λ e. Stands self.now e) }
    {
        at_end(&self.cursor)
    }
}
