// The line of a node in a plan text: `macro`, kind, letter, reads, writes and depth, or a layer's name.
#![tactic(auto)]

ghost use Rattle.std.specs.Prelude.{◌≡◌, [], ◌∷◌, ◌++◌};
ghost use Rattle.text.specs.Lines.{line_text};
ghost use Rattle.node_line.specs.Lines.{letter_byte, layer_name, line_of};
ghost use Rattle.node_line.specs.Reading.{LayerRead, LetterRead, LetterField, FieldsRead, Ranged, LineRead};

use node::{Layer, Macro, Node};
use text::{LineBuffer, LineFault, number, number_field};
use word::Letter;

// The fields of a macro's line, before their ranges are judged.
#[derive(Clone, Copy)]
struct Fields {
    kind: u128,
    letter: Letter,
    reads: u128,
    writes: u128,
    depth: u128,
}

// The layer with this name. Names and bytes are the text's, so these are functions here: an `impl` would
// have to stand beside the types, which know no text.
fn layer_of(word: &[u8]) -> Option<Layer>
    ensures { LayerRead word.now result }
{
    match word {
        b"replicate" => Some(Layer::Replicate),
        b"lvt" => Some(Layer::Lvt),
        b"xor" => Some(Layer::Xor),
        b"depth" => Some(Layer::Depth),
        b"width" => Some(Layer::Width),
        _ => None,
    }
}

// The letter that a byte writes.
fn letter_of(byte: u8) -> Option<Letter>
    ensures { LetterRead byte result }
{
    match byte {
        b'H' => Some(Letter::H),
        b'B' => Some(Letter::B),
        b'S' => Some(Letter::S),
        b'O' => Some(Letter::O),
        _ => None,
    }
}

// A letter and what follows its TAB.
fn letter_field(bytes: &[u8]) -> Option<(Letter, &[u8])>
    ensures { LetterField bytes.now result }
{
    match bytes {
        [byte, b'\t', rest @ ..] => Some((letter_of(*byte)?, rest)),
        _ => None,
    }
}

// The fields of a macro after its word.
fn fields_of(bytes: &[u8]) -> Option<Fields>
    ensures { FieldsRead bytes.now result }
{
    let (kind, rest) = number_field(bytes)?;
    let (letter, rest) = letter_field(rest)?;
    let (reads, rest) = number_field(rest)?;
    let (writes, rest) = number_field(rest)?;
    let depth = number(rest)?;
    Some(Fields {
        kind,
        letter,
        reads,
        writes,
        depth,
    })
}

// The macro with these fields, if each number is within its range. A number that its type cannot hold is
// out of range too.
fn within(fields: Fields) -> Option<Macro>
    ensures { Ranged fields result }
{
    let m = Macro {
        kind: u8::try_from(fields.kind).ok()?,
        letter: fields.letter,
        reads: u8::try_from(fields.reads).ok()?,
        writes: u8::try_from(fields.writes).ok()?,
        depth: u32::try_from(fields.depth).ok()?,
    };
    m.is_in_range().then_some(m)
}

/// The node that a line writes, its end left out. The whole line is judged for its form before any
/// number of it is judged for its range.
pub fn parse(line: &[u8]) -> Result<Node, LineFault>
    ensures { LineRead line.now result }
{
    let Some(fields) = line.strip_prefix(b"macro\t") else {
        return layer_of(line).map(Node::Layer).ok_or(LineFault::Malformed);
    };
    let fields = fields_of(fields).ok_or(LineFault::Malformed)?;
    within(fields).map(Node::Macro).ok_or(LineFault::OutOfRange)
}

/// The byte that writes a letter.
pub fn letter_byte(letter: Letter) -> u8
    ensures { result ≡ letter_byte letter }
{
    match letter {
        Letter::H => b'H',
        Letter::B => b'B',
        Letter::S => b'S',
        Letter::O => b'O',
    }
}

/// The name of a layer.
pub fn layer_name(layer: Layer) -> &'static [u8]
    ensures { result.now ≡ layer_name layer }
{
    match layer {
        Layer::Replicate => b"replicate",
        Layer::Lvt => b"lvt",
        Layer::Xor => b"xor",
        Layer::Depth => b"depth",
        Layer::Width => b"width",
    }
}

// The line of a macro, with its end.
fn macro_line(m: &Macro) -> LineBuffer
    ensures { line_text result ≡ line_of (Node.Macro m.now) ++ (10 ∷ []) }
{
    LineBuffer::new()
        .word(b"macro\t")
        .number(m.kind as u64)
        .byte(b'\t')
        .byte(letter_byte(m.letter))
        .byte(b'\t')
        .number(m.reads as u64)
        .byte(b'\t')
        .number(m.writes as u64)
        .byte(b'\t')
        .number(m.depth as u64)
        .byte(b'\n')
}

/// The line of a node, with its end.
pub fn render(node: &Node) -> LineBuffer
    ensures { line_text result ≡ line_of node.now ++ (10 ∷ []) }
{
    match node {
        Node::Macro(m) => macro_line(m),
        Node::Layer(layer) => LineBuffer::new().word(layer_name(*layer)).byte(b'\n'),
    }
}
