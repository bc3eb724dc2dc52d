//! The name of a picture: the words of the call that asked for it.
ghost use Rattle.std.specs.Prelude.{◌≡◌, ◌≤◌, ◌+◌, ◌++◌, flat_map, length};
ghost use Rattle.lens_svg.specs.Titles.{cut_text, heading_line, octet_text, title_line, title_of, word_text};
ghost use Rattle.tte_io.specs.Line.{line_limit};

use std::marker::Model;
use tte_forms::Words;
use tte_io::LineText;

/// How many words a title shows at most.
const MOST_WORDS: u32 = 7;

/// How many octets of a word it shows at most.
const MOST_OCTETS: usize = 60;

/// The program and the words of a call, as a text that SVG reads as no more than itself.
#[derive(Drop)]
pub struct Title {
    text: LineText,
}

impl Model for Title {
    ghost use Rattle.std.specs.Prelude.{ℕ, List, ◌≤◌, length};
    ghost use Rattle.lens_svg.specs.Titles.{title_limit};

    ghost Value = { List ℕ };

    ghost view = { λ t. t.text };

    ghost invariant = { λ t. length t.text ≤ title_limit };
}

/// Adds an octet as SVG reads it: at most 5 octets.
fn push_octet(text: &mut LineText, octet: u8)
    requires { length text.old + 5 ≤ line_limit }
    ensures text { text.new ≡ text.old ++ octet_text octet }
    ensures grows { length text.new ≤ length text.old + 5 }
{
    if octet == b'<' {
        text.push("&lt;");
    } else if octet == b'>' {
        text.push("&gt;");
    } else if octet == b'&' {
        text.push("&amp;");
    } else if 33 <= octet && octet <= 126 {
        text.append(&[octet]);
    } else {
        text.push("?");
    }
}

/// Adds at most 60 octets, each of which takes at most 5.
fn push_octets(text: &mut LineText, octets: &[u8])
    requires few { length octets.now ≤ 60 }
    requires room { length text.old + 300 ≤ line_limit }
    ensures text { text.new ≡ text.old ++ flat_map octet_text octets.now }
    ensures grows { length text.new ≤ length text.old + 300 }
{
    'octets: for octet in octets {
        push_octet(text, *octet);
    }
}

/// Adds a word, or the first octets of a longer one: at most 302 octets.
fn push_cut(text: &mut LineText, octets: &[u8])
    requires { length text.old + 302 ≤ line_limit }
    ensures text { text.new ≡ text.old ++ cut_text octets.now }
    ensures grows { length text.new ≤ length text.old + 302 }
{
    if octets.len() <= MOST_OCTETS {
        push_octets(text, octets);
    } else {
        push_octets(text, &octets[..MOST_OCTETS]);
        text.push("..");
    }
}

/// Adds a word behind a space: at most 303 octets.
fn push_word(text: &mut LineText, word: &str)
    requires { length text.old + 303 ≤ line_limit }
    ensures text { text.new ≡ text.old ++ word_text word.now }
    ensures grows { length text.new ≤ length text.old + 303 }
{
    text.push(" ");
    push_cut(text, word.as_bytes());
}

impl Title {
    /// The title of a picture that these words asked for.
    pub fn of(words: &Words) -> Title
        ensures { result ≡ title_of words.now }
    {
        let mut text = LineText::new();
        text.push("lens");
        'words: for place in 0..MOST_WORDS {
            match words.get(place) {
                Some(word) => push_word(&mut text, word),
                None => (),
            }
        }
        Title { text }
    }
}

/// Makes the line by which a picture is named, ended by LF: a browser shows it on the picture's tab.
#[tactic(auto, unfolding(crate::specs::Titles::title_line))]
pub fn make_title_line(line: &mut LineText, title: &Title)
    ensures { line.new ≡ title_line title.now }
{
    line.clear();
    line.push("<title>");
    line.append(title.text.as_slice());
    line.push("</title>\n");
}

/// Makes the line of the title at the head of a picture, ended by LF.
#[tactic(auto, unfolding(crate::specs::Titles::heading_line))]
pub fn make_heading_line(line: &mut LineText, title: &Title)
    ensures { line.new ≡ heading_line title.now }
{
    line.clear();
    line.push("<text class=\"top\" x=\"12\" y=\"24\">");
    line.append(title.text.as_slice());
    line.push("</text>\n");
}
