//! Puts the line of an answer.

ghost use Rattle.std.specs.Prelude.{◌≡◌, ◌∷◌, [], codes, decimal};
ghost use Rattle.std.specs.Fmt.{signed_decimal};
ghost use Rattle.std.specs.List.{flat_map};
ghost use Rattle.bk_io.specs.Buffers.{Gives};
ghost use Rattle.bk_io.specs.Sink.{AppendsAllOrPrefix, HasCause};
ghost use Rattle.named_files.specs.Names.{file_words};
ghost use Rattle.book.specs.Message.{message, shown_target, texts_of, why_text, limit_text};

use crate::outcome::{LimitOf, Outcome};
use crate::target::add_target;
use bk_io::buffer::Buffer as Line;
use bk_io::put_all::put_texts;
use bk_io::sink::{Failed, Sink};
use bk_num::limits::MOST_FILE_BYTES;
use itoa::Buffer;
use metrics::MetricsWhy;
use named_files::{FileOf, file_words};

/// How the program is called for a book.
const FORMAT_USAGE: &str =
    "format [--passes N] [--columns N] [--gap PX] [--patterns FILE] METRICS HTML [CSS ...]";

#[tactic(auto, unfolding(crate::specs::Message::why_text))]
fn why_text(why: MetricsWhy) -> &'static str
    ensures { result.now ≡ why_text why }
{
    match why {
        MetricsWhy::Header => "header",
        MetricsWhy::Word => "word",
        MetricsWhy::Number => "number",
        MetricsWhy::Range => "range",
        MetricsWhy::Order => "order",
        MetricsWhy::Pair => "pair",
        MetricsWhy::Twice => "twice",
        MetricsWhy::Many => "many",
        MetricsWhy::NoFace => "noface",
    }
}

#[tactic(auto, unfolding(crate::specs::Message::limit_text))]
fn limit_text(what: LimitOf) -> &'static str
    ensures { result.now ≡ limit_text what }
{
    match what {
        LimitOf::Nodes => "nodes",
        LimitOf::Depth => "depth",
        LimitOf::Sheets => "sheets",
        LimitOf::Rules => "rules",
        LimitOf::Text => "text",
        LimitOf::Pages => "pages",
    }
}

/// Puts the line that tells which limit is passed.
fn put_limit_line<E: Sink>(err: &mut E, what: LimitOf) -> Result<(), Failed>
    ensures bytes { AppendsAllOrPrefix (E.taken err.old) (E.taken err.new)
        (flat_map (λ t. t) (codes "bookfmt: limit: " ∷ limit_text what ∷ codes "\n" ∷ [])) result }
    ensures cause { HasCause (E.faults err.old) (E.faults err.new) result }
{
    put_texts(err, &["bookfmt: limit: ", limit_text(what), "\n"])
}

/// Puts the line that tells which file can't be read.
fn put_unread_line<E: Sink>(err: &mut E, file: FileOf) -> Result<(), Failed>
    ensures bytes { AppendsAllOrPrefix (E.taken err.old) (E.taken err.new)
        (flat_map (λ t. t) (codes "bookfmt: cannot read " ∷ (file_words file).0 ∷ (file_words file).1 ∷ codes "\n"
        ∷ [])) result }
    ensures cause { HasCause (E.faults err.old) (E.faults err.new) result }
{
    let mut buffer = Buffer::new();
    let (word, number) = file_words(file, &mut buffer);
    put_texts(err, &["bookfmt: cannot read ", word, number, "\n"])
}

/// Puts a line that tells of a file and of a number of its bytes.
fn put_bytes_line<E: Sink>(
    err: &mut E,
    file: FileOf,
    before: &'static str,
    count: u64,
    after: &'static str,
) -> Result<(), Failed>
    ensures bytes { AppendsAllOrPrefix (E.taken err.old) (E.taken err.new)
        (flat_map (λ t. t) (codes "bookfmt: " ∷ (file_words file).0 ∷ (file_words file).1 ∷ before.now
        ∷ decimal count ∷ after.now ∷ [])) result }
    ensures cause { HasCause (E.faults err.old) (E.faults err.new) result }
{
    let (mut first, mut second) = (Buffer::new(), Buffer::new());
    let (word, number) = file_words(file, &mut first);
    put_texts(
        err,
        &[
            "bookfmt: ",
            word,
            number,
            before,
            second.format(count),
            after,
        ],
    )
}

/// Puts the line that tells what is wrong in a metrics text.
fn put_metrics_line<E: Sink>(err: &mut E, line: u32, why: MetricsWhy) -> Result<(), Failed>
    ensures bytes { AppendsAllOrPrefix (E.taken err.old) (E.taken err.new)
        (flat_map (λ t. t) (codes "bookfmt: metrics line " ∷ decimal line ∷ codes ": " ∷ why_text why ∷ codes "\n"
        ∷ [])) result }
    ensures cause { HasCause (E.faults err.old) (E.faults err.new) result }
{
    let mut buffer = Buffer::new();
    put_texts(
        err,
        &[
            "bookfmt: metrics line ",
            buffer.format(line),
            ": ",
            why_text(why),
            "\n",
        ],
    )
}

/// Puts the line that tells which line of a patterns text has no reading.
fn put_patterns_line<E: Sink>(err: &mut E, line: u32) -> Result<(), Failed>
    ensures bytes { AppendsAllOrPrefix (E.taken err.old) (E.taken err.new)
        (flat_map (λ t. t) (codes "bookfmt: patterns line " ∷ decimal line ∷ codes "\n" ∷ [])) result }
    ensures cause { HasCause (E.faults err.old) (E.faults err.new) result }
{
    let mut buffer = Buffer::new();
    put_texts(err, &["bookfmt: patterns line ", buffer.format(line), "\n"])
}

/// Puts the line that tells how many pages there are.
fn put_pages_line<E: Sink>(err: &mut E, pages: u32, passes: u32) -> Result<(), Failed>
    ensures bytes { AppendsAllOrPrefix (E.taken err.old) (E.taken err.new)
        (flat_map (λ t. t) (codes "bookfmt: " ∷ decimal pages ∷ codes " pages, " ∷ decimal passes ∷ codes " passes\n"
        ∷ [])) result }
    ensures cause { HasCause (E.faults err.old) (E.faults err.new) result }
{
    let (mut first, mut second) = (Buffer::new(), Buffer::new());
    put_texts(
        err,
        &[
            "bookfmt: ",
            first.format(pages),
            " pages, ",
            second.format(passes),
            " passes\n",
        ],
    )
}

/// Adds what the line tells of a page reference after its target: the numbers of the last two passes.
fn add_numbers<E: Sink>(line: &mut Line, err: &mut E, before: i64, after: i64) -> Result<(), Failed>
    ensures bytes { Gives (E.taken err.old) line.old (E.taken err.new) line.new
        (flat_map (λ t. t) (codes " not settled: " ∷ signed_decimal before
        ∷ codes " then " ∷ signed_decimal after ∷ codes "\n" ∷ [])) result }
    ensures cause { HasCause (E.faults err.old) (E.faults err.new) result }
{
    let (mut first, mut second) = (Buffer::new(), Buffer::new());
    line.add_texts(
        err,
        &[
            " not settled: ",
            first.format(before),
            " then ",
            second.format(after),
            "\n",
        ],
    )
}

/// Adds what the line tells of a page reference that doesn't settle.
fn add_reference<E: Sink>(
    line: &mut Line,
    err: &mut E,
    target: &str,
    before: i64,
    after: i64,
) -> Result<(), Failed>
    ensures bytes { Gives (E.taken err.old) line.old (E.taken err.new) line.new
        (flat_map (λ t. t) (codes "bookfmt: page reference to " ∷ shown_target target.now ∷ codes " not settled: "
        ∷ signed_decimal before ∷ codes " then " ∷ signed_decimal after ∷ codes "\n" ∷ [])) result }
    ensures cause { HasCause (E.faults err.old) (E.faults err.new) result }
{
    line.add_text(err, "bookfmt: page reference to ")?;
    add_target(line, err, target)?;
    add_numbers(line, err, before, after)
}

/// Puts the line that tells which page reference doesn't settle. It is one put where it has 4,096 bytes at most.
fn put_reference_line<E: Sink>(
    err: &mut E,
    target: &str,
    before: i64,
    after: i64,
) -> Result<(), Failed>
    ensures bytes { AppendsAllOrPrefix (E.taken err.old) (E.taken err.new)
        (flat_map (λ t. t) (codes "bookfmt: page reference to " ∷ shown_target target.now ∷ codes " not settled: "
        ∷ signed_decimal before ∷ codes " then " ∷ signed_decimal after ∷ codes "\n" ∷ [])) result }
    ensures cause { HasCause (E.faults err.old) (E.faults err.new) result }
{
    let mut line = Line::new();
    add_reference(&mut line, err, target, before, after)?;
    line.flush(err)
}

/// Puts the line of an answer. It takes no memory but what the sink takes.
#[tactic(auto, unfolding(crate::specs::Message::texts_of))]
pub fn put_message<E: Sink>(err: &mut E, outcome: &Outcome) -> Result<(), Failed>
    ensures bytes { AppendsAllOrPrefix (E.taken err.old) (E.taken err.new) (message outcome.now) result }
    ensures cause { HasCause (E.faults err.old) (E.faults err.new) result }
{
    match outcome {
        Outcome::Done { pages, passes } => put_pages_line(err, *pages, *passes),
        Outcome::NotRead { .. } => put_texts(
            err,
            &[
                "bookfmt: usage: bookfmt ",
                FORMAT_USAGE,
                " or bookfmt sample N\n",
            ],
        ),
        Outcome::ReadFault { file } => put_unread_line(err, *file),
        Outcome::TooLarge { file } => put_bytes_line(
            err,
            *file,
            " has more than ",
            MOST_FILE_BYTES,
            " bytes\n",
        ),
        Outcome::NotUtf8 { file, at } => {
            put_bytes_line(err, *file, " is not UTF-8 at ", *at, "\n")
        }
        Outcome::BadMetrics { line, why } => put_metrics_line(err, *line, *why),
        Outcome::BadPatterns { line } => put_patterns_line(err, *line),
        Outcome::NotSettled {
            target,
            before,
            after,
        } => put_reference_line(err, target.as_str(), *before, *after),
        Outcome::Limit { what } => put_limit_line(err, *what),
        Outcome::WriteFault => put_texts(err, &["bookfmt: cannot write\n"]),
        Outcome::NoMemory => put_texts(err, &["bookfmt: no memory\n"]),
    }
}
