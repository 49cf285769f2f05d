//! A refusal as every program prints it.
ghost use Rattle.std.specs.Prelude.{◌≡◌, [], Some};
ghost use Rattle.pen.specs.Tails.{CopiedTo};
ghost use Rattle.tokens.specs.Text.{joined, line_of};
ghost use Rattle.order_frame.specs.Refusals.{refusal_number, refusal_line, refusal_place, refusal_told, refusal_words, refused_words};
ghost use Rattle.order_frame.specs.declared.refusal.Refusal.TheVariants.{Faulty};

use frames::denial::FrameDenial;
use pen::tail::Tail;
use records::denial::Denial;
use std::fmt;
use tokens::fault::Fault;

/// Why an order file has no frame.
// An enum, and no `Box<dyn Denial>`: a caller can ask which it is, and a box wants memory.
#[derive(Clone, Copy, Debug, PartialEq, Eq)]
pub enum Refusal {
    /// The bytes are no order file.
    Faulty(Fault),
    /// The frame of its records is denied, for the record on this line.
    Unframed { denial: FrameDenial, line: u32 },
}

impl Refusal {
    /// The refusal of any denial that a line of the file is to blame for.
    pub fn on_line<D: Denial>(denial: &D, line: u32) -> RefusedWords<'_, D>
        ensures denial { result.denial.now ≡ denial.now }
        ensures line { result.line ≡ line }
    {
        RefusedWords { denial, line }
    }

    /// The words of its line, with the byte that ends it. It always has them.
    pub fn words(&self) -> Tail
        ensures { result ≡ line_of (refused_words self.now) [] }
    {
        Refusal::on_line(self, self.line()).words()
    }

    /// The line of the file that is to blame.
    pub fn line(&self) -> u32
        ensures { result ≡ refusal_line self.now }
    {
        match self {
            Refusal::Faulty(fault) => fault.line(),
            Refusal::Unframed { line, .. } => *line,
        }
    }
}

impl Denial for Refusal {
    ghost numbered = { refusal_number };

    ghost placed = { refusal_place };

    fn number(&self) -> u32 {
        match self {
            Refusal::Faulty(fault) => fault.number(),
            Refusal::Unframed { denial, .. } => denial.number(),
        }
    }

    fn place(&self) -> u32 {
        match self {
            Refusal::Faulty(fault) => fault.place(),
            Refusal::Unframed { denial, .. } => denial.place(),
        }
    }
}

impl From<Fault> for Refusal {
    ghost from_gives = { λ fault r. r ≡ Faulty fault };

    fn from(fault: Fault) -> Self {
        Self::Faulty(fault)
    }
}

impl fmt::Display for Refusal {
    ghost output = { λ r. Some (joined (refused_words r)) };

    fn fmt<W: fmt::Write>(&self, f: &mut fmt::Formatter<W>) -> fmt::Result {
        let line = self.line();
        write!(f, "{}", RefusedWords { denial: self, line })
    }
}

/// The words of a file's refusal, of whatever kind it is.
#[derive(Drop)]
pub struct RefusedWords<'a, D> {
    pub denial: &'a D,
    /// The line of the file that is to blame.
    pub line: u32,
}

impl<D: Denial> RefusedWords<'_, D> {
    /// Writes the refusal's line to the front of `out`, where it holds it, and answers how many bytes that is.
    pub fn write_line(&self, out: &mut [u8]) -> Option<usize>
        ensures { CopiedTo (refusal_told D.numbered D.placed self.now.denial.now self.now.line) out.old result out.new }
    {
        self.words().copy_to(out)
    }

    /// The words of its line, with the byte that ends it. It always has them.
    pub fn words(&self) -> Tail
        ensures { result ≡ refusal_told D.numbered D.placed self.now.denial.now self.now.line }
    {
        let mut line = Tail::new();
        self.put(&mut line).unwrap();
        line
    }

    // Puts the words of the refusal into its line.
    fn put(&self, line: &mut Tail) -> Option<()>
        requires { line.old ≡ [] }
        ensures all { result ≡ Some tt }
        ensures written { line.new ≡ refusal_told D.numbered D.placed self.now.denial.now self.now.line }
    {
        line.number(self.denial.place(), b'\n')?;
        line.number(self.line, b' ')?;
        line.number(self.denial.number(), b' ')?;
        line.word(b"REFUSED", b' ')
    }
}

impl<D: Denial> fmt::Display for RefusedWords<'_, D> {
    ghost output = { λ words. Some (joined (refusal_words (D.numbered words.denial.now) words.line (D.placed words.denial.now))) };

    fn fmt<W: fmt::Write>(&self, f: &mut fmt::Formatter<W>) -> fmt::Result {
        let line = self.words();
        // Without the byte that ends it, since what prints a refusal ends the line.
        let Some((_, words)) = line.bytes().split_last() else {
            return Err(fmt::Error);
        };
        match std::str::from_utf8(words) {
            Ok(words) => f.write_str(words),
            Err(_) => Err(fmt::Error),
        }
    }
}
