//! The first word of a line.

ghost use Rattle.std.specs.Prelude.{◌≡◌};
ghost use Rattle.wk_edit.specs.Script.{verb_named};

/// What the first word of a line asks for.
#[derive(Clone, Copy, Debug, PartialEq, Eq)]
pub(crate) enum Verb {
    /// `type`
    TypeLine,
    /// `import`
    ImportLine,
    /// `func`
    FuncLine,
    /// `body`
    BodyLine,
    /// `global`
    GlobalLine,
    /// `export`
    ExportLine,
    /// `unexport`
    UnexportLine,
    /// `custom`
    CustomLine,
    /// `strip`
    StripLine,
}

/// What a word asks for as the first of a line. `None` where that is nothing.
pub(crate) fn read_verb(word: &[u8]) -> Option<Verb>
    ensures { result ≡ verb_named word.now }
{
    if word == b"type".as_slice() {
        Some(Verb::TypeLine)
    } else if word == b"import".as_slice() {
        Some(Verb::ImportLine)
    } else if word == b"func".as_slice() {
        Some(Verb::FuncLine)
    } else if word == b"body".as_slice() {
        Some(Verb::BodyLine)
    } else if word == b"global".as_slice() {
        Some(Verb::GlobalLine)
    } else if word == b"export".as_slice() {
        Some(Verb::ExportLine)
    } else if word == b"unexport".as_slice() {
        Some(Verb::UnexportLine)
    } else if word == b"custom".as_slice() {
        Some(Verb::CustomLine)
    } else if word == b"strip".as_slice() {
        Some(Verb::StripLine)
    } else {
        None
    }
}
