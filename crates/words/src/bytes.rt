// What the bytes of a sheet are.
ghost use Rattle.std.specs.Prelude.{◌≡◌};
ghost use Rattle.words.specs.Bytes.{kind};

// What a byte is to a sheet.
#[derive(Clone, Copy, PartialEq, Eq)]
pub enum Kind {
    LineEnd,
    Space,
    Open,
    Close,
    Semicolon,
    Letter,
    Other,
}

pub fn kind_of(b: u8) -> Kind
    ensures { result ≡ kind b }
{
    match b as char {
        '\n' => Kind::LineEnd,
        ' ' => Kind::Space,
        '(' => Kind::Open,
        ')' => Kind::Close,
        ';' => Kind::Semicolon,
        '-' | 'a'..='z' | '0'..='9' => Kind::Letter,
        _ => Kind::Other,
    }
}
