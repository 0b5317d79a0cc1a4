//! How long what stands at the start of a text is.

ghost use Rattle.std.specs.Prelude.{◌≡◌, ◌<◌, ◌≤◌, ◌+◌, ◌^◌, length};
ghost use Rattle.std.specs.Char.{is_ascii_hexdigit};
ghost use Rattle.std.specs.List.{prefix_len};
ghost use Rattle.css_tok.specs.Lengths as spec;

use bk_num::chars::byte;

#[derive(Clone, Copy, Debug)]
pub enum Class {
    /// Name characters, escapes among them.
    Name,
    /// Everything up to the next `\`.
    Plain,
    Digit,
    Blank,
    Address,
    Quoted(u8),
}

/// Whether a byte is a newline: LF, FF or CR.
pub fn is_newline(b: u8) -> bool
    ensures { result ≡ spec.is_newline b }
{
    b == b'\n' || b == 12 || b == b'\r'
}

/// Whether a byte is white space (CSS 2.1, 4.1.1).
pub fn is_blank(b: u8) -> bool
    ensures { result ≡ spec.is_blank b }
{
    b == b' ' || b == b'\t' || is_newline(b)
}

fn is_name(b: u8) -> bool
    ensures { result ≡ spec.is_name b }
{
    b.is_ascii_alphanumeric() || b == b'_' || b == b'-' || 128 <= b
}

fn is_address(b: u8) -> bool
    ensures { result ≡ spec.is_address b }
{
    !(b <= b' ' || b == 127 || b == b'"' || b == b'\'' || b == b'(' || b == b')')
}

#[tactic(auto, unfolding(crate::specs::Lengths::newline_len))]
pub(crate) fn newline_len(text: &[u8]) -> usize
    ensures value { result ≡ spec.newline_len text.now }
    ensures within { result ≤ length text.now }
    ensures few { result ≤ 2 }
{
    match text {
        [b'\r', b'\n', ..] => 2,
        [b, ..] if is_newline(*b) => 1,
        _ => 0,
    }
}

#[tactic(auto, unfolding(crate::specs::Lengths::blank_len))]
fn blank_len(text: &[u8]) -> usize
    ensures value { result ≡ spec.blank_len text.now }
    ensures within { result ≤ length text.now }
    ensures few { result ≤ 2 }
{
    match text {
        [b' ', ..] => 1,
        [b'\t', ..] => 1,
        _ => newline_len(text),
    }
}

fn hex_run(text: &[u8]) -> usize
    ensures value { result ≡ prefix_len is_ascii_hexdigit text.now }
    ensures within { result ≤ length text.now }
{
    let mut count = 0;
    while count < text.len() && text[count].is_ascii_hexdigit() {
        count += 1;
    }
    count
}

#[tactic(auto, using(std::proofs::lemmas::Grind::common_steps), unfolding(crate::specs::Lengths::hex_len))]
pub(crate) fn hex_len(text: &[u8]) -> usize
    ensures value { result ≡ spec.hex_len text.now }
    ensures within { result ≤ length text.now }
    ensures few { result ≤ 6 }
{
    if text.len() < 6 {
        hex_run(text)
    } else {
        hex_run(&text[..6])
    }
}

#[tactic(auto, unfolding(crate::specs::Lengths::escape_len))]
pub(crate) fn escape_len(text: &[u8]) -> usize
    ensures value { result ≡ spec.escape_len text.now }
    ensures within { result ≤ length text.now }
    ensures few { result ≤ 8 }
{
    match text {
        [] => 0,
        [b, ..] if b.is_ascii_hexdigit() => {
            let digits = hex_len(text);
            digits + blank_len(&text[digits..])
        }
        [b, ..] => if is_newline(*b) { 0 } else { 1 },
    }
}

fn with_backslash(len: usize) -> usize
    requires { len < 2 ^ 63 }
    ensures value { result ≡ spec.with_backslash len }
    ensures within { result ≤ len + 1 }
{
    if len == 0 { 0 } else { 1 + len }
}

fn quoted_len(text: &[u8]) -> usize
    ensures value { result ≡ spec.quoted_len text.now }
    ensures within { result ≤ length text.now }
    ensures few { result ≤ 8 }
{
    match newline_len(text) {
        0 => escape_len(text),
        len => len,
    }
}

#[tactic(auto, unfolding(crate::specs::Lengths::unit_len))]
fn unit_len(class: Class, text: &[u8]) -> usize
    ensures value { result ≡ spec.unit_len class text.now }
    ensures within { result ≤ length text.now }
{
    let [b, rest @ ..] = text else {
        return 0;
    };
    match class {
        Class::Name => {
            if is_name(*b) {
                1
            } else if *b == b'\\' {
                with_backslash(escape_len(rest))
            } else {
                0
            }
        }
        Class::Plain => if *b == b'\\' { 0 } else { 1 },
        Class::Digit => if b.is_ascii_digit() { 1 } else { 0 },
        Class::Blank => if is_blank(*b) { 1 } else { 0 },
        Class::Address => if is_address(*b) { 1 } else { 0 },
        Class::Quoted(quote) => {
            if *b == quote || is_newline(*b) {
                0
            } else if *b == b'\\' {
                1 + quoted_len(rest)
            } else {
                1
            }
        }
    }
}

#[tactic(auto, using(crate::proofs::Runs::run_goes, crate::proofs::Runs::run_ends))]
pub(crate) fn run_len(class: Class, text: &[u8]) -> usize
    ensures value { result ≡ spec.run_len class text.now }
    ensures within { result ≤ length text.now }
{
    let mut at = 0;
    'units: loop {
        let unit = unit_len(class, &text[at..]);
        if unit == 0 {
            return at;
        }
        at += unit;
    }
}

#[tactic(auto, unfolding(crate::specs::Lengths::hyphens))]
fn hyphens(text: &[u8]) -> usize
    ensures value { result ≡ spec.hyphens text.now }
    ensures within { result ≤ length text.now }
{
    match text {
        [b'-', b'-', ..] => 2,
        [b'-', ..] => 1,
        _ => 0,
    }
}

#[tactic(auto, unfolding(crate::specs::Lengths::begins_name))]
fn begins_name(text: &[u8]) -> bool
    ensures { result ≡ spec.begins_name text.now }
{
    let b = byte(text, 0);
    !(b.is_ascii_digit() || b == b'-') && 0 < unit_len(Class::Name, text)
}

#[tactic(auto, unfolding(crate::specs::Lengths::ident_len))]
pub(crate) fn ident_len(text: &[u8]) -> usize
    ensures value { result ≡ spec.ident_len text.now }
    ensures within { result ≤ length text.now }
{
    let start = hyphens(text);
    if begins_name(&text[start..]) {
        start + run_len(Class::Name, &text[start..])
    } else {
        0
    }
}

/// 1 where a text begins with a sign, else 0.
#[tactic(auto, unfolding(crate::specs::Lengths::sign_len))]
pub fn sign_len(text: &[u8]) -> usize
    ensures value { result ≡ spec.sign_len text.now }
    ensures within { result ≤ length text.now }
{
    match text {
        [b'+', ..] => 1,
        [b'-', ..] => 1,
        _ => 0,
    }
}

#[tactic(auto, unfolding(crate::specs::Lengths::fraction_len))]
fn fraction_len(text: &[u8]) -> usize
    ensures value { result ≡ spec.fraction_len text.now }
    ensures within { result ≤ length text.now }
{
    match text {
        [b'.', rest @ ..] => with_backslash(run_len(Class::Digit, rest)),
        _ => 0,
    }
}

#[tactic(auto, unfolding(crate::specs::Lengths::unsigned_len))]
fn unsigned_len(text: &[u8]) -> usize
    ensures value { result ≡ spec.unsigned_len text.now }
    ensures within { result ≤ length text.now }
{
    let whole = run_len(Class::Digit, text);
    whole + fraction_len(&text[whole..])
}

/// How long the number at the start of a text is; 0 where none stands there.
#[tactic(auto, unfolding(crate::specs::Lengths::number_len))]
pub fn number_len(text: &[u8]) -> usize
    ensures value { result ≡ spec.number_len text.now }
    ensures within { result ≤ length text.now }
{
    let sign = sign_len(text);
    match unsigned_len(&text[sign..]) {
        0 => 0,
        len => sign + len,
    }
}

#[tactic(auto, unfolding(crate::specs::Lengths::comment_len))]
pub(crate) fn comment_len(text: &[u8]) -> usize
    ensures value { result ≡ spec.comment_len text.now }
    ensures within { result ≤ length text.now }
{
    let mut at = 0;
    while at < text.len() {
        if text[at] == b'*' && byte(text, at + 1) == b'/' {
            return at + 2;
        }
        at += 1;
    }
    at
}
