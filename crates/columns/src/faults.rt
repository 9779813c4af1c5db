//! What can be wrong with a field, a line or a file. A fault holds that of the layer below it whole.

ghost use Rattle.std.specs.Prelude.{◌≡◌, ℕ};
ghost use Rattle.columns.specs.declared.faults.LineFault.TheVariants.{Field};
ghost use Rattle.columns.specs.declared.faults.FileFault.TheVariants.{Content, Line};
ghost use Rattle.columns.specs.Faults.{number_of_field, number_of_line, number_of_file, on_line};

/// A refusal that is told to others by a number.
pub trait Numbered {
    ghost numbered: { Self → ℕ };

    fn number(&self) -> u32
        ensures { result ≡ numbered self.now };
}

/// What is wrong with a field. Lines and columns count from 1.
#[derive(Clone, Copy, PartialEq, Eq, Debug)]
pub enum FieldFault {
    /// The field that starts in this column is no number.
    NoNumber { line: usize, column: usize },
}

/// What is wrong with a line.
#[derive(Clone, Copy, PartialEq, Eq, Debug)]
pub enum LineFault {
    /// The line has not just its columns.
    Length { line: usize },
    /// This is the fault of the first of its fields that has one.
    Field(FieldFault),
}

/// What is wrong with a file of lines. What a line says may be refused too: `C` is the fault of such content, and each
/// format has its own.
#[derive(Clone, Copy, PartialEq, Eq, Debug)]
pub enum FileFault<C> {
    /// A line cannot be read.
    Line(LineFault),
    /// A line can be read, and what it says is refused.
    Content { line: usize, fault: C },
}

/// A fault of content, and the number of the line that says it.
#[derive(Clone, Copy, PartialEq, Eq, Debug)]
pub struct OnLine<C> {
    pub line: usize,
    pub fault: C,
}

// The conversions are written out, so that clauses can name the case that `?` makes.

impl From<FieldFault> for LineFault {
    ghost from_gives = { λ fault r. r ≡ Field fault };

    fn from(fault: FieldFault) -> LineFault {
        LineFault::Field(fault)
    }
}

impl<C> From<LineFault> for FileFault<C> {
    ghost from_gives = { λ fault r. r ≡ Line fault };

    fn from(fault: LineFault) -> FileFault<C> {
        FileFault::Line(fault)
    }
}

impl<C> From<OnLine<C>> for FileFault<C> {
    ghost from_gives = { λ met r. r ≡ Content met.line met.fault };

    fn from(met: OnLine<C>) -> FileFault<C> {
        FileFault::Content {
            line: met.line,
            fault: met.fault,
        }
    }
}

// The numbers are the format's; a case that holds fields carries none.

impl Numbered for FieldFault {
    ghost numbered = { number_of_field };

    fn number(&self) -> u32 {
        match self {
            FieldFault::NoNumber { .. } => 19,
        }
    }
}

impl Numbered for LineFault {
    ghost numbered = { number_of_line };

    fn number(&self) -> u32 {
        match self {
            LineFault::Length { .. } => 18,
            LineFault::Field(fault) => fault.number(),
        }
    }
}

impl<C: Numbered> Numbered for FileFault<C> {
    ghost numbered = { number_of_file C.numbered };

    fn number(&self) -> u32 {
        match self {
            FileFault::Line(fault) => fault.number(),
            FileFault::Content { fault, .. } => fault.number(),
        }
    }
}

/// The same answer, where a fault comes with the number of the line that brought it.
pub fn on_line<T, C>(line: usize, answer: Result<T, C>) -> Result<T, OnLine<C>>
    ensures { result ≡ on_line line answer }
{
    answer.map_err(|fault| OnLine { line, fault })
}
