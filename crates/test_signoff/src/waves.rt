// Dumps that are read back.
use outside::Text;
use replay_waves::{First, Signal, Wave, wave_text};
use set_tree::Rows;
use std::alloc::{AllocError, Global};
use std::test::Fail;

// A variable that was read: its path, its length, its code, its value, and its values at all times before.
#[derive(Drop)]
struct Seen<'a> {
    path: Vec<u8>,
    width: &'a [u8],
    code: &'a [u8],
    value: &'a [u8],
    values: Vec<u8>,
}

impl Seen<'_> {
    fn pass(&mut self) -> Result<(), AllocError> {
        if self.value.is_empty() {
            return Ok(());
        }
        self.values.push(b' ')?;
        self.values.extend_from_slice(self.value)
    }

    // A line of it: its path, its length, and its values before each time.
    fn add_line(&self, out: &mut Vec<u8>) -> Result<(), AllocError> {
        out.extend_from_slice(&self.path)?;
        out.push(b' ')?;
        out.extend_from_slice(self.width)?;
        out.push(b':')?;
        out.extend_from_slice(&self.values)?;
        out.extend_from_slice(b"\n")
    }
}

// What was read so far.
#[derive(Drop)]
struct Reader<'a> {
    alloc: Global,
    scopes: Vec<&'a [u8]>,
    seen: Vec<Seen<'a>>,
}

impl<'a> Reader<'a> {
    fn open(&mut self, scope: &'a [u8]) -> Result<(), AllocError> {
        self.scopes.push(scope)?;
        Ok(())
    }

    fn add_path(&self, path: &mut Vec<u8>, name: &[u8]) -> Result<(), AllocError> {
        for scope in &self.scopes {
            path.extend_from_slice(scope)?;
            path.push(b'.')?;
        }
        path.extend_from_slice(name)
    }

    fn declare(&mut self, width: &'a [u8], code: &'a [u8], name: &[u8]) -> Result<(), AllocError> {
        let mut path = Vec::new(self.alloc);
        self.add_path(&mut path, name)?;
        let values = Vec::new(self.alloc);
        self.seen.push(Seen {
            path,
            width,
            code,
            value: b"",
            values,
        })?;
        Ok(())
    }

    fn change(&mut self, code: &[u8], value: &'a [u8]) {
        for seen in self.seen.iter_mut() {
            if seen.code == code {
                seen.value = value;
            }
        }
    }

    fn pass(&mut self) -> Result<(), AllocError> {
        for seen in self.seen.iter_mut() {
            seen.pass()?;
        }
        Ok(())
    }

    fn words(&mut self, words: &[&'a [u8]]) -> Result<(), AllocError> {
        match words {
            [b"$scope", _, name, _] => return self.open(name),
            [b"$var", _, width, code, name, _] => return self.declare(width, code, name),
            [[b'#', ..]] => return self.pass(),
            [b"$upscope", _] => {
                let _ = self.scopes.pop();
            }
            [[b'b', digits @ ..], code] => self.change(code, digits),
            [[b'0', code @ ..]] => self.change(code, b"0"),
            [[b'1', code @ ..]] => self.change(code, b"1"),
            _ => {}
        }
        Ok(())
    }

    fn line(&mut self, line: &'a [u8]) -> Result<(), AllocError> {
        let words: Vec<&[u8]> = line.split(|byte| *byte == b' ').collect(self.alloc)?;
        self.words(&words)
    }

    fn dump(&mut self, dump: &'a [u8]) -> Result<(), AllocError> {
        for line in dump.split(|byte| *byte == b'\n') {
            self.line(line)?;
        }
        Ok(())
    }

    fn add_lines(&self, out: &mut Vec<u8>) -> Result<(), AllocError> {
        for seen in &self.seen {
            seen.add_line(out)?;
        }
        Ok(())
    }
}

// Adds a line for each variable of a dump.
fn read(alloc: Global, out: &mut Vec<u8>, dump: &[u8]) -> Result<(), AllocError> {
    let mut reader = Reader {
        alloc,
        scopes: Vec::new(alloc),
        seen: Vec::new(alloc),
    };
    reader.dump(dump)?;
    reader.add_lines(out)
}

// What is shown, in plain values, and the lines that are read of its dump.
struct Case {
    signals: &'static [(&'static str, u8)],
    firsts: &'static [(&'static str, u8, u64)],
    before: u32,
    first: &'static [[u64; 3]],
    second: &'static [[u64; 3]],
    lines: &'static str,
}

static CASES: [Case; 2] = [
    // two reset cycles and two others; in the third one both values of more bits stay
    Case {
        signals: &[("rst", 1), ("u.q", 2), ("m$0", 8)],
        firsts: &[("u.v.r", 2, 3)],
        before: 2,
        first: &[[1, 3, 200], [1, 0, 200], [0, 0, 200], [0, 1, 201]],
        second: &[],
        lines: "segment.clk 1: 1 0 1 0 1 0 1 0
segment.cycle 32: 11111111111111111111111111111110 11111111111111111111111111111110 \
11111111111111111111111111111111 11111111111111111111111111111111 0 0 1 1
segment.rst 1: 1 1 1 1 0 0 0 0
segment.u.q 2: 11 11 0 0 0 0 1 1
segment.m$0 8: 11001000 11001000 11001000 11001000 11001000 11001000 11001001 11001001
start.u.v.r 2: 11 11 11 11 11 11 11 11
",
    },
    // a window of three cycles and one of two
    Case {
        signals: &[("en", 1), ("u.q", 3), ("u.w", 64)],
        firsts: &[],
        before: 1,
        first: &[[1, 5, 1], [1, 6, 1], [0, 7, 1]],
        second: &[[0, 0, 2], [1, 0, 3]],
        lines: "first.clk 1: 1 0 1 0 1 0
first.cycle 32: 11111111111111111111111111111111 11111111111111111111111111111111 0 0 1 1
first.en 1: 1 1 1 1 0 0
first.u.q 3: 101 101 110 110 111 111
first.u.w 64: 1 1 1 1 1 1
second.clk 1: 1 0 1 0 0 0
second.cycle 32: 0 0 1 1 1 1
second.en 1: 0 0 1 1 1 1
second.u.q 3: 0 0 0 0 0 0
second.u.w 64: 10 10 11 11 11 11
",
    },
];

fn add_signals(
    alloc: Global,
    signals: &mut Rows<Signal>,
    named: &[(&str, u8)],
) -> Result<(), AllocError> {
    for (name, width) in named {
        signals.push(Signal {
            name: Text::copy(alloc, name.as_bytes())?,
            width: *width,
        })?;
    }
    Ok(())
}

fn add_firsts(
    alloc: Global,
    firsts: &mut Rows<First>,
    named: &[(&str, u8, u64)],
) -> Result<(), AllocError> {
    for (name, width, value) in named {
        firsts.push(First {
            name: Text::copy(alloc, name.as_bytes())?,
            width: *width,
            value: *value,
        })?;
    }
    Ok(())
}

fn row_of(alloc: Global, cycle: &[u64; 3]) -> Result<Rows<u64>, AllocError> {
    let mut row = Rows::new(alloc);
    for value in cycle {
        row.push(*value)?;
    }
    Ok(row)
}

fn window(alloc: Global, cycles: &[[u64; 3]]) -> Result<Rows<Rows<u64>>, AllocError> {
    let mut window = Rows::new(alloc);
    for cycle in cycles {
        window.push(row_of(alloc, cycle)?)?;
    }
    Ok(window)
}

fn second_of(alloc: Global, case: &Case) -> Result<Option<Rows<Rows<u64>>>, AllocError> {
    if case.second.is_empty() {
        return Ok(None);
    }
    Ok(Some(window(alloc, case.second)?))
}

fn fill(alloc: Global, wave: &mut Wave, case: &Case) -> Result<(), AllocError> {
    wave.clock.append(b"clk")?;
    add_signals(alloc, &mut wave.signals, case.signals)?;
    add_firsts(alloc, &mut wave.firsts, case.firsts)?;
    wave.first = window(alloc, case.first)?;
    wave.second = second_of(alloc, case)?;
    Ok(())
}

fn wave_of(alloc: Global, case: &Case) -> Result<Wave, AllocError> {
    let mut wave = Wave {
        clock: Text::new(Vec::new(alloc)),
        signals: Rows::new(alloc),
        firsts: Rows::new(alloc),
        before: case.before,
        first: Rows::new(alloc),
        second: None,
    };
    fill(alloc, &mut wave, case)?;
    Ok(wave)
}

// The lines that are read of a case's dump.
fn lines_of(alloc: Global, case: &Case) -> Result<Vec<u8>, AllocError> {
    let wave = wave_of(alloc, case)?;
    let dump = wave_text(alloc, &wave)?;
    let mut lines = Vec::new(alloc);
    read(alloc, &mut lines, dump.bytes())?;
    Ok(lines)
}

#[test]
fn dumps_are_read_back(rt: HostRuntime) -> Result<(), Fail> {
    for case in &CASES {
        let lines = lines_of(rt.alloc(), case)?;
        assert_eq!(rt; lines.as_slice(), case.lines.as_bytes());
    }
    Ok(())
}
