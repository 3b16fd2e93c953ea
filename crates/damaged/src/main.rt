// A table of plan texts, most of them damaged, and the answer that each must get.
//
// It reads cases.txt in the current folder: one case a line, with six fields that are parted by one TAB.
// A line that begins with # is a comment.
//
//   part    what is asked: `read` the reader alone; `check` the reader, the check and the writer;
//           `write` the reader and the writer; `pass` as `check`, with no fault.
//   number  the fault's number; 0 for no fault.
//   place   its place; 0 for no fault.
//   size    for `read` the places of the node buffer, for `write` the bytes of the output buffer;
//           0 for the others. A buffer that it does not speak of has 64 places, or 65,536 bytes.
//   times   how often the text stands, one after another.
//   text    \t is TAB, \n byte 10, \r byte 13, \0 byte 0 and \\ a backslash.
//
// Where there is no fault, what is written must be the text that was read, byte for byte.
#![tactic(auto)]

use anyhow::anyhow;
use node::{Layer, MAX_NODES, Node, check};
use plan_text::{read, write};
use std::alloc::Global;
use std::{fmt, fs};
use text::{Fault, MAX_BYTES, cut, number_field};

const FILE: &str = "cases.txt";

// The largest number of places that a case asks for: more than a plan may have nodes.
const MAX_PLACES: usize = 70;

// The part that a case asks for, and the part that a fault comes from.
#[derive(Clone, Copy, PartialEq, Eq)]
enum Part {
    Read,
    Check,
    Write,
    Pass,
}

// What is written of a text that no part refuses.
#[derive(Clone, Copy, PartialEq, Eq)]
enum Outcome {
    // The text that was read.
    Fine,
    // Another text.
    Changed,
}

// A fault, and the part that it comes from.
#[derive(Clone, Copy, PartialEq, Eq)]
struct Refusal {
    part: Part,
    number: u8,
    place: usize,
}

// What comes of a text.
type Answer = Result<Outcome, Refusal>;

// An answer as it is printed, in one piece with its line.
#[derive(Clone, Copy)]
struct Told(Answer);

// A case of the table.
#[derive(Drop)]
struct Case {
    part: Part,
    expected: Answer,
    size: usize,
    text: Vec<u8>,
}

// A case that was tried.
#[derive(Clone, Copy)]
struct Verdict {
    part: Part,
    right: bool,
}

impl fmt::Display for Part {
    // The part's word, as the table has it.
    fn fmt<W: fmt::Write>(&self, f: &mut fmt::Formatter<W>) -> fmt::Result {
        match self {
            Part::Read => write!(f, "read"),
            Part::Check => write!(f, "check"),
            Part::Write => write!(f, "write"),
            Part::Pass => write!(f, "pass"),
        }
    }
}

impl fmt::Display for Outcome {
    // The outcome in words.
    fn fmt<W: fmt::Write>(&self, f: &mut fmt::Formatter<W>) -> fmt::Result {
        match self {
            Outcome::Fine => write!(f, "no fault"),
            Outcome::Changed => write!(f, "another text"),
        }
    }
}

impl fmt::Display for Refusal {
    // The fault in words.
    fn fmt<W: fmt::Write>(&self, f: &mut fmt::Formatter<W>) -> fmt::Result {
        let Refusal {
            part,
            number,
            place,
        } = self;
        write!(f, "{part} fault {number} at {place}")
    }
}

impl fmt::Display for Told {
    // The outcome or the fault, in words.
    fn fmt<W: fmt::Write>(&self, f: &mut fmt::Formatter<W>) -> fmt::Result {
        match &self.0 {
            Ok(outcome) => write!(f, "{outcome}"),
            Err(refusal) => write!(f, "{refusal}"),
        }
    }
}

impl Refusal {
    // The refusal of a text by a part.
    fn by<F: Fault>(part: Part, fault: &F) -> Refusal {
        let report = fault.report();
        Refusal {
            part,
            number: report.number,
            place: report.place,
        }
    }
}

// The part that a field names. No `TryFrom`: a field that names none has no error to tell.
fn part_of(word: &[u8]) -> Option<Part> {
    match word {
        b"read" => Some(Part::Read),
        b"check" => Some(Part::Check),
        b"write" => Some(Part::Write),
        b"pass" => Some(Part::Pass),
        _ => None,
    }
}

// The answer that a part, a number and a place speak of.
fn expected_of(part: Part, number: u8, place: usize) -> Option<Answer> {
    match (part, number, place) {
        (Part::Check, 0, _) => None,
        (_, 0, 0) => Some(Ok(Outcome::Fine)),
        (Part::Pass, _, _) | (_, 0, _) => None,
        _ => Some(Err(Refusal {
            part,
            number,
            place,
        })),
    }
}

// The byte that stands for a letter after a backslash.
fn escape(letter: u8) -> Option<u8> {
    match letter {
        b't' => Some(b'\t'),
        b'n' => Some(b'\n'),
        b'r' => Some(b'\r'),
        b'0' => Some(b'\0'),
        b'\\' => Some(b'\\'),
        _ => None,
    }
}

// The bytes that the last field of a line stands for; none where a backslash or a TAB stands amiss.
fn unescaped(heap: Global, field: &[u8]) -> Option<Vec<u8>> {
    let mut text = Vec::new(heap);
    let mut bytes = field.iter().copied();
    while let Some(byte) = bytes.next() {
        match byte {
            b'\\' => text.push(escape(bytes.next()?)?).ok()?,
            b'\t' => return None,
            _ => text.push(byte).ok()?,
        }
    }
    Some(text)
}

// A text that stands several times, one after another.
fn repeated(heap: Global, text: &[u8], times: usize) -> Option<Vec<u8>> {
    let mut all = Vec::new(heap);
    for _ in 0..times {
        all.extend_from_slice(text).ok()?;
    }
    Some(all)
}

// The first field of a line, a number, and what follows its TAB.
fn count_field(line: &[u8]) -> Option<(usize, &[u8])> {
    let (n, rest) = number_field(line)?;
    Some((usize::try_from(n).ok()?, rest))
}

// The case that a line of the table writes, or none where it writes no case.
fn case_of(heap: Global, line: &[u8]) -> Option<Case> {
    let (word, rest) = cut(line, b'\t')?;
    let part = part_of(word)?;
    let (number, rest) = count_field(rest)?;
    let (place, rest) = count_field(rest)?;
    let (size, rest) = count_field(rest)?;
    let (times, rest) = count_field(rest)?;
    let text = unescaped(heap, rest)?;
    let number = u8::try_from(number).ok()?;
    let expected = expected_of(part, number, place)?;
    let text = repeated(heap, text.as_slice(), times)?;
    Some(Case {
        part,
        expected,
        size,
        text,
    })
}

// What comes of writing nodes: the writer's fault, or whether they make up the text again.
fn written(nodes: &[Node], text: &[u8], out: &mut [u8]) -> Answer {
    let size = write(nodes, out).map_err(|fault| Refusal::by(Part::Write, &fault))?;
    if size == text.len() && out.starts_with(text) {
        Ok(Outcome::Fine)
    } else {
        Ok(Outcome::Changed)
    }
}

// What comes of a text, as far as a part goes. The writer is asked without the check for a `write`.
fn answer_to(part: Part, text: &[u8], nodes: &mut [Node], out: &mut [u8]) -> Answer {
    let count = read(text, nodes).map_err(|fault| Refusal::by(Part::Read, &fault))?;
    if part == Part::Read {
        return Ok(Outcome::Fine);
    }
    let nodes = &nodes[..count];
    if part != Part::Write {
        check(nodes).map_err(|fault| Refusal::by(Part::Check, &fault))?;
    }
    written(nodes, text, out)
}

// What comes of a case's text, with buffers of the sizes that it asks for.
fn tried(heap: Global, case: &Case) -> anyhow::Result<Answer> {
    let (places, room) = match case.part {
        Part::Read => (case.size, MAX_BYTES),
        Part::Write => (MAX_NODES, case.size),
        Part::Check | Part::Pass => (MAX_NODES, MAX_BYTES),
    };
    let mut out = vec![in heap; 0u8; room]?;
    let mut nodes = [Node::Layer(Layer::Lvt); MAX_PLACES];
    let nodes = nodes
        .get_mut(..places)
        .ok_or_else(|| anyhow!("more than 70 places"))?;
    Ok(answer_to(case.part, case.text.as_slice(), nodes, &mut out))
}

// Tries the case of one line, and says so if its answer is wrong.
fn judged(rt: &HostRuntime, place: usize, line: &[u8]) -> anyhow::Result<Verdict> {
    let Some(case) = case_of(rt.alloc(), line) else {
        println!(rt; "line {place} is no case")?;
        return Err(anyhow!("a line is no case"));
    };
    let came = tried(rt.alloc(), &case)?;
    let expected = case.expected;
    let right = came == expected;
    if !right {
        let (expected, came) = (Told(expected), Told(came));
        println!(rt; "line {place}: expected {expected}, came {came}")?;
    }
    let part = case.part;
    Ok(Verdict { part, right })
}

// Tries every case of the table.
fn judged_all(rt: &HostRuntime, table: &str) -> anyhow::Result<Vec<Verdict>> {
    let mut verdicts = Vec::new(rt.alloc());
    for (i, line) in table.lines().enumerate() {
        if !line.starts_with('#') {
            verdicts.push(judged(rt, i.saturating_add(1), line.as_bytes())?)?;
        }
    }
    Ok(verdicts)
}

// How many cases of a part there are.
fn count_of(verdicts: &[Verdict], part: Part) -> usize {
    verdicts.iter().filter(|v| v.part == part).count()
}

// How many cases are wrong.
fn wrong_of(verdicts: &[Verdict]) -> usize {
    verdicts.iter().filter(|v| !v.right).count()
}

// Tries the table, and says how many cases there are and how many are wrong.
fn run(rt: &HostRuntime) -> anyhow::Result<()> {
    let table = fs::read_to_string(rt, FILE).map_err(|_| anyhow!("cannot read cases.txt"))?;
    let verdicts = judged_all(rt, table.as_str())?;
    for part in [Part::Read, Part::Check, Part::Write, Part::Pass] {
        let count = count_of(verdicts.as_slice(), part);
        println!(rt; "{part}: {count} cases")?;
    }
    let count = verdicts.len();
    let wrong = wrong_of(verdicts.as_slice());
    println!(rt; "{count} cases, {wrong} wrong")?;
    if wrong > 0 {
        return Err(anyhow!("a case is wrong"));
    }
    Ok(())
}

// Ends with an error where the table did not pass.
fn main(rt: HostRuntime) -> anyhow::Result<()> {
    run(&rt)
}
