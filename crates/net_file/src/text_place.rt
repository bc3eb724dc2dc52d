ghost use Rattle.std.specs.Prelude.{◌+◌, ◌<◌, ◌^◌, ◌≡◌, ◌≢◌, ◌≤◌, ◌↔◌, IfErr, IfOk, IfSome, None, length, take, ℕ};
ghost use Rattle.net_file.specs.{Schema.IsNoDocument, TextPlaces.{place_after, place_behind, text_start}};
ghost use Rattle.net_file.specs.declared.refusal.FileRefusal.TheVariants.{OutOfMemory};

use crate::FileRefusal;
use std::alloc::Global;

/// Where in a text something stands.
#[derive(Clone, Copy, PartialEq, Eq)]
pub struct TextPlace {
    /// The line, from 1. A line ends with LF.
    pub line: u32,
    /// Which character of the line, from 1.
    pub column: u32,
}

/// The octet that ends a line.
const LF: u8 = b'\n';

impl TextPlace {
    /// The place behind an octet that stands here.
    fn after(self, octet: u8) -> TextPlace
        requires line { self.line < 2 ^ 31 }
        requires column { self.column < 2 ^ 31 }
        ensures { result ≡ place_after octet self }
    {
        if octet == LF {
            TextPlace {
                line: self.line + 1,
                column: 1,
            }
        } else if 128 <= octet && octet <= 191 {
            self
        } else {
            TextPlace {
                line: self.line,
                column: self.column + 1,
            }
        }
    }
}

// The place behind a text.
fn place_behind_text(text: &[u8]) -> TextPlace
    requires { length text.now ≤ 262144 }
    ensures { result ≡ place_behind text.now text_start }
{
    let mut place = TextPlace { line: 1, column: 1 };
    let mut left = text;
    'octets: while let Some((octet, rest)) = left.split_first() {
        place = place.after(*octet);
        left = rest;
    }
    place
}

/// Where a text is found to be no TOML document; None where it is one, and where it is no UTF-8.
///
/// The text has at most 262,144 octets. The place is that at which the reader of TOML gives up: its clause ties it to
/// the text, and to no rule of the grammar. The error is that memory ran out.
pub fn find_fault(alloc: Global, text: &[u8]) -> Result<Option<TextPlace>, FileRefusal>
    requires { length text.now ≤ 262144 }
    ensures found { IfOk result (λ found. (found ≢ None) ↔ IsNoDocument text.now) }
    ensures place { IfOk result (λ found. IfSome found (λ place. (count : ℕ) × (count ≤ length text.now)
        × (place ≡ place_behind (take count text.now) text_start))) }
    ensures err { IfErr result (λ e. e ≡ OutOfMemory) }
{
    let Ok(document) = std::str::from_utf8(text) else {
        return Ok(None);
    };
    let Err(error) = toml::table_from_str(alloc, document) else {
        return Ok(None);
    };
    match error.span() {
        Some(span) => Ok(Some(place_behind_text(&text[..span.start]))),
        None => Err(FileRefusal::OutOfMemory),
    }
}
