//! The line of a sequenced packet.
ghost use Rattle.std.specs.Prelude.{◌≡◌, ◌+◌, ◌≤◌, ◌<◌, ◌++◌, [], length};
ghost use Rattle.ipx_inside.specs.Fields.{flagged};
ghost use Rattle.ipx_inside.specs.SpxText.{control_text, numbers_text, size_text, spx_text, stream_text, stream_word};

use crate::line::Line;
use crate::spx::{Size, Spx};

/// Puts the line.
#[tactic(auto, unfolding(crate::specs::SpxText::spx_text))]
pub(crate) fn put_spx(line: &mut Line, spx: &Spx)
    requires { line.old ≡ [] }
    ensures { line.new ≡ spx_text spx.now }
{
    put_control(line, spx.control);
    put_stream(line, spx.stream);
    line.put(numbers_line(spx).as_str());
    put_size(line, spx.size);
}

#[tactic(auto, unfolding(crate::specs::SpxText::control_text))]
fn put_control(line: &mut Line, control: u8)
    requires { line.old ≡ [] }
    ensures text { line.new ≡ control_text control }
    ensures most { length line.new ≤ 80 }
{
    line.put_byte_field("spx control ", control);
    put_flag(line, control, 128, " system");
    put_flag(line, control, 64, " acknowledge");
    put_flag(line, control, 32, " attention");
    put_flag(line, control, 16, " end");
}

/// Puts a word if the bit is set.
fn put_flag(line: &mut Line, byte: u8, bit: u8, word: &str)
    requires bit { 0 < bit }
    requires room { length line.old + length word.now ≤ 256 }
    ensures text { line.new ≡ line.old ++ flagged byte bit word.now }
    ensures most { length line.new ≤ length line.old + length word.now }
{
    if byte / bit % 2 == 1 {
        line.put(word);
    }
}

#[tactic(auto, unfolding(crate::specs::SpxText::stream_text))]
fn put_stream(line: &mut Line, stream: u8)
    requires { length line.old ≤ 80 }
    ensures text { line.new ≡ line.old ++ stream_text stream }
    ensures most { length line.new ≤ length line.old + 20 }
{
    line.put_byte_field(" stream ", stream);
    line.put(stream_word(stream));
}

fn stream_word(stream: u8) -> &'static str
    ensures word { result.now ≡ stream_word stream }
    ensures most { length result.now ≤ 6 }
{
    match stream {
        0xFE => " ends",
        0xFF => " ended",
        _ => "",
    }
}

#[tactic(auto, unfolding(crate::specs::SpxText::numbers_text))]
fn numbers_line(spx: &Spx) -> Line
    ensures text { result ≡ numbers_text spx.now }
    ensures most { length result ≤ 110 }
{
    let mut line = Line::new();
    line.put_word_field(" source ", spx.source);
    line.put_word_field(" destination ", spx.destination);
    line.put_field(" sequence ", u32::from(spx.sequence));
    line.put_field(" acknowledge ", u32::from(spx.acknowledge));
    line.put_field(" allocation ", u32::from(spx.allocation));
    line
}

#[tactic(auto, unfolding(crate::specs::SpxText::size_text))]
fn put_size(line: &mut Line, size: Size)
    requires { length line.old ≤ 220 }
    ensures { line.new ≡ line.old ++ size_text size }
{
    match size {
        Size::Absent => {}
        Size::Cut => line.put(" size cut"),
        Size::Number(number) => line.put_field(" size ", u32::from(number)),
    }
}
