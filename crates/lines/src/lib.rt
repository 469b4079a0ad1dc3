// What the program prints: the reply's three numbers, and one line for each task of an accepted graph.
#![tactic(auto)]

ghost use Rattle.std.specs.Prelude.{◌*◌, ◌≤◌, length};
ghost use Rattle.output.specs.Cursor.{HasRoom, Wrote};
ghost use Rattle.lines.specs.Lines.{word, figure_lines, Printed};

use graph::Graph;
use itoa::Buffer;
use output::Cursor;
use reply::Numbers;

// A number in decimal and a byte behind it. The longest number of 64 bits has 20 digits.
// Kept: `Printed` fixes every byte, and `answer` can't fail. `write!` promises its bytes where it succeeds, and nowhere that it does.
fn put_word(cursor: &mut Cursor, n: u64, end: u8)
    requires { HasRoom cursor.old 21 }
    ensures word { Wrote cursor.old (word n end) cursor.new }
    ensures short { length (word n end) ≤ 21 }
{
    let mut digits = Buffer::new();
    cursor.put(digits.format(n).as_bytes());
    cursor.put(&[end]);
}

// One line for each figure: its index, and the figure.
fn put_figures(cursor: &mut Cursor, figures: &[u32])
    requires { HasRoom cursor.old (length figures.now * 42) }
    ensures { Wrote cursor.old (figure_lines 0 figures.now) cursor.new }
{
    for (i, figure) in figures.iter().enumerate() {
        put_word(cursor, i as u64, b' ');
        put_word(cursor, u64::from(*figure), b'\n');
    }
}

// The lines for a file at the front of the output; the answer is how many bytes they are.
// Kept: no heap. `Printed` fixes every byte of the output that is lent, and how many of them are the lines.
pub fn answer(file: &[u8], out: &mut [u8; 2048]) -> usize
    ensures { Printed file.now out.old out.new result }
{
    let mut report = [0; Graph::TASKS];
    let reply = checker::check_file(file, &mut report);
    let numbers = Numbers::from(reply);
    let figures = &report[..reply.unwrap_or(0)];
    let mut cursor = Cursor::new(out);
    put_word(&mut cursor, u64::from(numbers.number), b' ');
    put_word(&mut cursor, numbers.place as u64, b' ');
    put_word(&mut cursor, numbers.job, b'\n');
    put_figures(&mut cursor, figures);
    cursor.place()
}
