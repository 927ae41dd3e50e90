// Going through the bytes of a text, past full stops or past commas.
ghost use Rattle.std.specs.Prelude.{◌≡◌, ◌≤◌, ◌<◌, ◌+◌, List, length, drop, true, false};
ghost use Rattle.def_text.specs.Tokens.{gap_len as gap_len_of, TokenSpan};
ghost use Rattle.def_text.specs.Spelling.{offset_of};
ghost use Rattle.def_text.specs.Forms.{after_stops};
ghost use Rattle.def_refusal.specs.ItemStarts.{depth_after, is_opener, in_bracket, tokens_past_commas};
ghost use Rattle.tn_refusal.specs.declared.skim.Zone.TheVariants.{Code};
ghost use Rattle.tn_refusal.specs.declared.skim.Aim.TheVariants.{Stops};
ghost use Rattle.tn_refusal.specs.Skims.{zone_after, sign_of_byte, sign_in, role_of_sign, left_after, offset_past};
ghost use Rattle.tn_refusal.specs.Skims.{IsIdle, AreAhead};

use tn_text::{ends_form, gap_len};

/// Where a byte of a text stands: in a token without quotes or between tokens, in a comment, or between quotes, there
/// after a backslash or not.
#[derive(Clone, Copy)]
pub enum Zone {
    Code,
    Comment,
    Quoted { quote: u8 },
    Escaped { quote: u8 },
}

/// What a byte does to tuples, lists and forms: it opens or closes one, separates elements, ends a form, or nothing.
#[derive(Clone, Copy)]
pub enum Sign {
    Opener,
    Closer,
    Separator,
    Stop,
    Plain,
}

/// What is passed: full stops, or commas outside of brackets.
#[derive(Clone, Copy)]
pub enum Aim {
    Stops,
    Commas,
}

/// Where the byte after this one stands.
fn zone_after(zone: Zone, b: u8) -> Zone
    ensures { result ≡ zone_after zone b }
{
    match zone {
        Zone::Code => {
            if b == b'%' {
                Zone::Comment
            } else if b == b'\'' || b == b'"' {
                Zone::Quoted { quote: b }
            } else {
                Zone::Code
            }
        }
        Zone::Comment => if b == b'\n' {
            Zone::Code
        } else {
            Zone::Comment
        },
        Zone::Quoted { quote } => {
            if b == quote {
                Zone::Code
            } else if b == b'\\' {
                Zone::Escaped { quote }
            } else {
                Zone::Quoted { quote }
            }
        }
        Zone::Escaped { quote } => Zone::Quoted { quote },
    }
}

/// What a byte outside of quotes and comments does, before these.
fn sign_of_byte(b: u8, rest: &[u8]) -> Sign
    ensures { result ≡ sign_of_byte b rest.now }
{
    if b == b'{' || b == b'[' {
        Sign::Opener
    } else if b == b'}' || b == b']' {
        Sign::Closer
    } else if b == b',' {
        Sign::Separator
    } else if b == b'.' && ends_form(rest) {
        Sign::Stop
    } else {
        Sign::Plain
    }
}

/// What a byte does where it stands, before these.
fn sign_in(zone: Zone, b: u8, rest: &[u8]) -> Sign
    ensures { result ≡ sign_in zone b rest.now }
{
    match zone {
        Zone::Code => sign_of_byte(b, rest),
        Zone::Comment => Sign::Plain,
        Zone::Quoted { .. } => Sign::Plain,
        Zone::Escaped { .. } => Sign::Plain,
    }
}

/// How many brackets are open after a byte, of so many before it.
fn depth_after(depth: usize, sign: Sign) -> usize
    requires { depth < usize.MAX }
    ensures { result ≡ depth_after depth (role_of_sign sign) }
{
    match sign {
        Sign::Opener => depth + 1,
        Sign::Closer => depth.saturating_sub(1),
        Sign::Separator => depth,
        Sign::Stop => depth,
        Sign::Plain => depth,
    }
}

/// How many full stops, or commas outside of brackets, are left after a byte.
fn left_after(aim: Aim, depth: usize, left: usize, sign: Sign) -> usize
    ensures { result ≡ left_after aim depth left sign }
{
    match (aim, sign) {
        (Aim::Stops, Sign::Stop) => left.saturating_sub(1),
        (Aim::Commas, Sign::Separator) => {
            if depth == 0 {
                left.saturating_sub(1)
            } else {
                left
            }
        }
        _ => left,
    }
}

/// Whether the byte does nothing where it stands, and the next one stands there too. Of a few bytes outside of quotes
/// and comments that is not said.
fn is_idle(zone: Zone, b: u8) -> bool
    ensures { result ≡ true → IsIdle zone b }
{
    match zone {
        Zone::Code => b == b' ' || (b'0' <= b && b <= b'Z') || (b'a' <= b && b <= b'z'),
        Zone::Comment => b != b'\n',
        Zone::Quoted { quote } => b != quote && b != b'\\',
        Zone::Escaped { .. } => false,
    }
}

#[tactic(auto, using(crate::proofs::Skims::none_left, crate::proofs::Skims::depth_le, crate::proofs::Skims::one_on))]
/// The offset after so many full stops, or commas outside of brackets, from this one on; the end where there are fewer.
fn offset_past(text: &[u8], from: usize, aim: Aim, count: usize) -> usize
    requires { from ≤ length text.now }
    ensures value { result ≡ offset_past aim Code 0 count from (drop from text.now) }
    ensures onward { from ≤ result }
    ensures fits { result ≤ length text.now }
{
    let mut zone = Zone::Code;
    let mut depth = 0;
    let mut left = count;
    for i in from..text.len() {
        if left == 0 {
            return i;
        }
        if !is_idle(zone, text[i]) {
            let sign = sign_in(zone, text[i], &text[i + 1..]);
            left = left_after(aim, depth, left, sign);
            depth = depth_after(depth, sign);
            zone = zone_after(zone, text[i]);
        }
    }
    text.len()
}

/// The full stops of a text of tokens: how many there are, and the offset after the last of them, which is 0 where
/// there are none.
#[derive(Clone, Copy)]
pub struct FullStops {
    pub count: usize,
    pub end: usize,
}

/// The full stops of a text of tokens. No clause speaks of them.
pub fn full_stops(text: &[u8]) -> FullStops {
    let mut zone = Zone::Code;
    let mut stops = FullStops { count: 0, end: 0 };
    for i in 0..text.len() {
        if !is_idle(zone, text[i]) {
            if matches!(sign_in(zone, text[i], &text[i + 1..]), Sign::Stop) {
                stops = FullStops {
                    count: stops.count.saturating_add(1),
                    end: i + 1,
                };
            }
            zone = zone_after(zone, text[i]);
        }
    }
    stops
}

/// The offset after so many full stops, or the end where there are fewer.
pub fn past_stops(text: &[u8], stops: usize) -> usize
    ensures tokens { (xs : List TokenSpan) → AreAhead text.now 0 xs → AreAhead text.now result (after_stops stops xs) }
    ensures fits { result ≤ length text.now }
{
    offset_past(text, 0, Aim::Stops, stops)
}

/// The offset after the next full stop from this one on, or the end where there is none.
pub fn past_stop(text: &[u8], from: usize) -> usize
    requires { from ≤ length text.now }
    ensures value { result ≡ offset_past Stops Code 0 1 from (drop from text.now) }
    ensures onward { from ≤ result }
    ensures fits { result ≤ length text.now }
{
    offset_past(text, from, Aim::Stops, 1)
}

/// The offset after so many commas outside of brackets, from this one on, or the end where there are fewer.
pub fn past_commas(text: &[u8], from: usize, commas: usize) -> usize
    requires { from ≤ length text.now }
    ensures tokens { (xs : List TokenSpan) → AreAhead text.now from xs
        → AreAhead text.now result (tokens_past_commas 0 commas xs) }
    ensures fits { result ≤ length text.now }
{
    offset_past(text, from, Aim::Commas, commas)
}

/// The offset of the next token from this one on, or the end.
pub fn next_start(text: &[u8], from: usize) -> usize
    requires { from ≤ length text.now }
    ensures value { result ≡ from + gap_len_of false (drop from text.now) }
    ensures tokens { (xs : List TokenSpan) → AreAhead text.now from xs → result ≡ offset_of (length text.now) xs }
    ensures fits { result ≤ length text.now }
{
    from + gap_len(&text[from..])
}

/// Whether it opens a tuple or a list.
fn is_opener(sign: Sign) -> bool
    ensures { result ≡ is_opener (role_of_sign sign) }
{
    match sign {
        Sign::Opener => true,
        Sign::Closer => false,
        Sign::Separator => false,
        Sign::Stop => false,
        Sign::Plain => false,
    }
}

/// The offset after the bracket of the tuple or list that begins at this one; this one where none does, as before a
/// string.
pub fn in_bracket(text: &[u8], from: usize) -> usize
    requires { from ≤ length text.now }
    ensures tokens { (xs : List TokenSpan) → AreAhead text.now from xs → AreAhead text.now result (in_bracket xs) }
    ensures fits { result ≤ length text.now }
{
    let at = next_start(text, from);
    if at == text.len() {
        return from;
    }
    if is_opener(sign_of_byte(text[at], &text[at + 1..])) {
        at + 1
    } else {
        from
    }
}
