// The kinds of bytes, and the table of them. 01: "The reader sorts bytes by a table of 256 byte kinds (upper, lower, digit, mark, tab, line
// feed, other)".
ghost use Rattle.std.specs.Prelude.{◌≡◌};
ghost use Rattle.lines.specs.Bytes.{kind_of, kind_table, of_label};

#[derive(Clone, Copy, Debug, PartialEq, Eq)]
pub enum Kind {
    Upper,
    Lower,
    Digit,
    Mark,
    Tab,
    LineFeed,
    Other,
}

// the kinds in the table's rows
const UP: Kind = Kind::Upper;

const LO: Kind = Kind::Lower;

const DI: Kind = Kind::Digit;

const MA: Kind = Kind::Mark;

const TA: Kind = Kind::Tab;

const LF: Kind = Kind::LineFeed;

const __: Kind = Kind::Other;

// a row for the sixteen bytes with the same first hexadecimal digit, which stands beside it
static KINDS: [Kind; 256] = [
    //_0  _1  _2  _3  _4  _5  _6  _7  _8  _9  _A  _B  _C  _D  _E  _F
    __, __, __, __, __, __, __, __, __, TA, LF, __, __, __, __, __, // 0_
    __, __, __, __, __, __, __, __, __, __, __, __, __, __, __, __, // 1_
    __, __, __, __, __, __, __, __, __, __, __, __, __, MA, MA, __, // 2_
    DI, DI, DI, DI, DI, DI, DI, DI, DI, DI, __, __, __, __, __, __, // 3_
    __, UP, UP, UP, UP, UP, UP, UP, UP, UP, UP, UP, UP, UP, UP, UP, // 4_
    UP, UP, UP, UP, UP, UP, UP, UP, UP, UP, UP, __, __, __, __, MA, // 5_
    __, LO, LO, LO, LO, LO, LO, LO, LO, LO, LO, LO, LO, LO, LO, LO, // 6_
    LO, LO, LO, LO, LO, LO, LO, LO, LO, LO, LO, __, __, __, __, __, // 7_
    __, __, __, __, __, __, __, __, __, __, __, __, __, __, __, __, // 8_
    __, __, __, __, __, __, __, __, __, __, __, __, __, __, __, __, // 9_
    __, __, __, __, __, __, __, __, __, __, __, __, __, __, __, __, // A_
    __, __, __, __, __, __, __, __, __, __, __, __, __, __, __, __, // B_
    __, __, __, __, __, __, __, __, __, __, __, __, __, __, __, __, // C_
    __, __, __, __, __, __, __, __, __, __, __, __, __, __, __, __, // D_
    __, __, __, __, __, __, __, __, __, __, __, __, __, __, __, __, // E_
    __, __, __, __, __, __, __, __, __, __, __, __, __, __, __, __, // F_
];

// The kinds of all bytes. The table is lent, not copied.
pub fn kind_table() -> &'static [Kind; 256]
    ensures { result.now ≡ kind_table }
{
    &KINDS
}

impl Kind {
    // The kind of a byte, by the table.
    pub fn of(byte: u8) -> Kind
        ensures { result ≡ kind_of byte }
    {
        kind_table()[usize::from(byte)]
    }

    // A byte of this kind may stand in a label. 01: "A–Z, a–z, 0–9, `-`, `_`, `.`"
    pub fn is_of_label(self) -> bool
        ensures { result ≡ of_label self }
    {
        matches!(self, Kind::Upper | Kind::Lower | Kind::Digit | Kind::Mark)
    }
}
