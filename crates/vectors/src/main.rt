// Runs stored containers: for each file that an argument names, prints its name, the line about it and, if it is accepted, the Adler-32
// (RFC 1950) of all its chunks' parts and of all its tasks' streams, and what a load answers whose table has one cell too few.
#![tactic(auto)]

use format::head::LISTS;
use format::loaded::Loaded;
use format::refusal::Refusal;
use std::fs::File;
use std::process::ExitCode;
use std::{env, fmt, io};
use streams::input::{INPUT, LONGEST};
use streams::{input, output};

const CELLS: usize = 2_048;

// The streams are copied in pieces of so many bytes.
const PIECE: usize = 100;

// No task has more chunks, and no stream of an input that is judged more bytes.
const MOST_CHUNKS: u64 = 32;

const MOST_BYTES: u64 = 65_536;

const ADLER: u64 = 65_521;

// The Adler-32 of the bytes that were added to it.
#[derive(Clone, Copy)]
struct Sum {
    a: u64,
    b: u64,
}

impl Default for Sum {
    fn default() -> Sum {
        Sum { a: 1, b: 0 }
    }
}

impl fmt::Display for Sum {
    fn fmt<W: fmt::Write>(&self, f: &mut fmt::Formatter<W>) -> fmt::Result {
        write!(f, "{:08x}", self.b % ADLER * 65_536 + self.a % ADLER)
    }
}

// The sum of any two numbers, so that no loop has to say how great its own are.
fn plus(x: u64, y: u64) -> u64 {
    (x % ADLER + y % ADLER) % ADLER
}

impl Sum {
    fn add(&mut self, bytes: &[u8]) {
        for byte in bytes {
            self.a = plus(self.a, u64::from(*byte));
            self.b = plus(self.b, self.a);
        }
    }
}

// A loaded container and what was lent for it.
#[derive(Clone, Copy)]
struct Container<'a> {
    loaded: Loaded,
    lists: &'a [u64; LISTS],
    image: &'a [u8],
    table: &'a [i64],
}

impl Container<'_> {
    // One chunk's part of the image.
    fn chunk(&self, task: u64, chunk: u64) -> Result<&[u8], Refusal> {
        container::try_chunk(self.loaded, self.lists, self.image, self.table, task, chunk)
    }

    // What a read of a task's stream from p on copies into a piece.
    fn read<'p>(&self, task: u64, p: u64, piece: &'p mut [u8; PIECE]) -> &'p [u8] {
        let copied = container::read(
            self.loaded,
            self.lists,
            self.image,
            self.table,
            task,
            p,
            piece,
        );
        &piece[..copied.unwrap_or(0)]
    }

    // The parts of a task's chunks, up to the first that is refused.
    fn add_parts(&self, task: u64, sum: &mut Sum) {
        for part in (1..=MOST_CHUNKS).map_while(|chunk| self.chunk(task, chunk).ok()) {
            sum.add(part);
        }
    }

    // A task's stream, piece by piece, up to the first that is not whole.
    fn add_stream(&self, task: u64, sum: &mut Sum) {
        for p in (0..=MOST_BYTES).step_by(PIECE) {
            let mut piece = [0u8; PIECE];
            let part = self.read(task, p, &mut piece);
            sum.add(part);
            if part.len() < PIECE {
                break;
            }
        }
    }
}

// What cannot be written is left out: the lines are compared with those that are wanted. Each text is written by itself, and what follows it is
// tried after one that failed.
fn print(rt: &HostRuntime, text: &[u8]) {
    let _ = output::write_text(&mut rt.stdout(), text);
}

// The sums of all tasks' chunks and of their streams.
fn print_sums(rt: &HostRuntime, container: &Container) {
    let mut parts = Sum::default();
    let mut streams = Sum::default();
    for task in 1..=u64::from(container.loaded.head.n) {
        container.add_parts(task, &mut parts);
        container.add_stream(task, &mut streams);
    }
    print(rt, b" | ");
    let _ = print!(rt; "{parts}");
    print(rt, b" ");
    let _ = print!(rt; "{streams}");
}

// What a load answers whose table has as many cells.
fn print_short(rt: &HostRuntime, image: &[u8], table: &mut [i64], cells: usize) {
    if let Some(short) = table.get_mut(..cells) {
        let answer = container::load(image, short);
        let _ = print!(rt; " {}", answer.refusal);
    }
}

// What is printed of an accepted container behind its line, and nothing of any other.
fn print_container(rt: &HostRuntime, image: &[u8]) {
    let mut table = [0i64; CELLS];
    let answer = container::load(image, &mut table);
    if answer.refusal == 0 {
        let l = answer.loaded;
        let lists = answer.lists;
        let container = Container {
            loaded: l,
            lists: &lists,
            image,
            table: &table,
        };
        print_sums(rt, &container);
        let cells = l.head.n as usize * l.maxchunks as usize;
        print_short(rt, image, &mut table, cells.saturating_sub(1));
    }
}

// Prints what is said of a file, or says why it cannot be opened or read.
fn run(rt: &HostRuntime, name: &str) -> io::Result<()> {
    let mut buf = [0u8; INPUT];
    let mut file = File::open(rt, name)?;
    let count = input::read_input(&mut file, &mut buf)?;
    let image = &buf[..count];
    print(rt, name.as_bytes());
    print(rt, b": ");
    print(rt, line::line(image).as_str().as_bytes());
    if count <= LONGEST {
        print_container(rt, image);
    }
    print(rt, b"\n");
    Ok(())
}

// The first file that cannot be run is the last that is tried.
fn main(rt: HostRuntime) -> ExitCode {
    let names = match env::args(&rt) {
        Ok(names) => names,
        Err(e) => {
            let _ = output::fail(&rt, "vectors: argument", e);
            return ExitCode::FAILURE;
        }
    };
    for name in names.skip(1) {
        if let Err(e) = run(&rt, name.as_str()) {
            let _ = output::fail(&rt, name.as_str(), e);
            return ExitCode::FAILURE;
        }
    }
    ExitCode::SUCCESS
}
