ghost use Rattle.std.specs.Prelude.{◌≡◌, ◌+◌, ◌<◌, ◌≤◌, length, option_map, IfOk, IfSome};
ghost use Rattle.std.specs.List.{prefix_len};
ghost use Rattle.bk_expr.specs.Text.{is_of_text, is_blank, is_of_run, past_blanks, run_at, sign_at};

// What each byte is: `r` of a run, `t` of the text alone, `-` of neither; 32 bytes a row.
static KINDS: [u8; 256] = *b"\
---------t----------------------\
ttttrtttttttttrtrrrrrrrrrrtttttt\
trrrrrrrrrrrrrrrrrrrrrrrrrrttttt\
trrrrrrrrrrrrrrrrrrrrrrrrrrtttt-\
--------------------------------\
--------------------------------\
--------------------------------\
--------------------------------\
";

/// Whether a byte may stand in a line of the text: a blank, or one that is printed.
#[tactic(auto, using(crate::proofs::Tables::of_text))]
pub fn is_of_text(c: u8) -> bool
    ensures { result ≡ is_of_text c }
{
    KINDS[usize::from(c)] != b'-'
}

fn is_blank(c: u8) -> bool
    ensures { result ≡ is_blank c }
{
    c == b' ' || c == b'\t'
}

// Whether a byte is a letter, a digit, `.` or `$`.
#[tactic(auto, using(crate::proofs::Tables::of_run))]
pub(crate) fn is_of_run(c: u8) -> bool
    ensures { result ≡ is_of_run c }
{
    KINDS[usize::from(c)] == b'r'
}

fn blanks_len(text: &[u8]) -> usize
    ensures value { result ≡ prefix_len is_blank text.now }
    ensures within { result ≤ length text.now }
{
    text.iter().take_while(|c| is_blank(**c)).count()
}

fn run_len(text: &[u8]) -> usize
    ensures value { result ≡ prefix_len is_of_run text.now }
    ensures within { result ≤ length text.now }
{
    text.iter().take_while(|c| is_of_run(**c)).count()
}

/// The text after the blanks at its front. Blanks are spaces and tabs.
pub fn past_blanks(text: &[u8]) -> &[u8]
    ensures value { result.now ≡ past_blanks text.now }
    ensures within { length result.now ≤ length text.now }
{
    &text[blanks_len(text)..]
}

/// The run of letters, digits, `.` and `$` at the front of a text, blanks before it, and the text after it. It may be empty.
pub fn run(text: &[u8]) -> (&[u8], &[u8])
    ensures value { (result.0.now, result.1.now) ≡ run_at text.now }
    ensures within { length result.0.now + length result.1.now ≤ length text.now }
{
    let from = past_blanks(text);
    from.split_at(run_len(from))
}

/// The text after a sign at its front, blanks before it. None exactly where another byte or none stands there.
pub fn sign(text: &[u8], sign: u8) -> Option<&[u8]>
    ensures value { option_map (λ rest. rest.now) result ≡ sign_at sign text.now }
    ensures shorter { IfSome result (λ rest. length rest.now < length text.now) }
{
    match past_blanks(text) {
        [c, rest @ ..] if *c == sign => Some(rest),
        _ => None,
    }
}
