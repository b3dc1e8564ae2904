//! Tests of calls over files, input and outputs in memory, of which one operation fails: the bytes written until then, and the number of writes, where the
//! clauses of `cool` specify only messages and images. The cases of `conformance/` show everything else that commands do.

use cool_driver::cool;
use cool_ports::{MemShelf, MemSink, MemSource};
use std::alloc::Global;
use std::test::Fail;

/// A list of numbers.
const LIST: &[u8] = b"class List inherits IO {
  head : Int;
  tail : List;
  init(h : Int, t : List) : SELF_TYPE { { head <- h; tail <- t; self; } };
  sum() : Int { if isvoid tail then head else head + tail.sum() fi };
  show() : SELF_TYPE {
    {
      out_int(head);
      out_string(\"\\n\");
      if isvoid tail then self else { tail.show(); self; } fi;
    }
  };
};
";

/// It reads numbers up to 0, and shows them, the last one first, and their sum.
const MAIN: &[u8] = b"class Main inherits IO {
  main() : Object {
    let l : List, n : Int <- in_int() in
      {
        while 0 < n loop { l <- (new List).init(n, l).copy(); n <- in_int(); } pool;
        if isvoid l then out_string(\"empty\\n\")
        else l.show().out_int(l.sum()).out_string(\"\\n\") fi;
      }
  };
};
";

/// A string of 70 bytes, and an empty one.
const LONG_STRING: &[u8] =
    b"class Main inherits IO { main() : Object { { out_string(\"aaaaaaaaaaaaaaaaaaaaaaaaaaaaaaaaaaaaaaaaaaaaaaaaaaaaaaaaaaaaaaaaaaaaaa\"); out_string(\"\"); } }; };";

/// Twelve strings: their image has more than 4,096 bytes and fewer than 8,192.
const TWELVE_STRINGS: &[u8] =
    b"class Main inherits IO { main() : Object { { out_string(\"a\"); out_string(\"b\"); out_string(\"c\"); out_string(\"d\"); out_string(\"e\"); out_string(\"f\"); out_string(\"g\"); out_string(\"h\"); out_string(\"i\"); out_string(\"j\"); out_string(\"k\"); out_string(\"l\"); } }; };";

/// Three faults.
const CYCLE: &[u8] = b"class A inherits B { }; class B inherits A { };";

/// print_char of 0x41; read_char; exit with 4: a put, a take, and a note.
const ASSEMBLY: &[u8] =
    b"__start: li $a0, 65\nli $v0, 11\nsyscall\nli $v0, 12\nsyscall\nli $a0, 4\nli $v0, 17\nsyscall\n";

/// A question, a number that is read, and its sum with 1: each is one call.
const QUESTION: &[u8] =
    b"class Main inherits IO { main() : Object { { out_string(\"n? \"); out_int(in_int() + 1); } }; };";

/// The files that each call finds.
static FILES: [(&str, &[u8]); 9] = [
    ("list.cl", LIST),
    ("main.cl", MAIN),
    ("question.cl", QUESTION),
    ("long.cl", LONG_STRING),
    ("twelve.cl", TWELVE_STRINGS),
    ("cycle.cl", CYCLE),
    ("none.cl", b"no program"),
    ("char.s", ASSEMBLY),
    ("script", b"step 1\nstep 2\n"),
];

/// The numbers of the read, put, take and note that are to fail, from 1, or 0 for none.
type Failing = (u64, u64, u64, u64);

/// A call: its words, its input and what is to fail; and its status, its output and its notes.
type Row = (
    &'static [&'static str],
    &'static [u8],
    Failing,
    u8,
    &'static [u8],
    &'static [u8],
);

/// The devices of a call, which it reads and writes.
#[derive(Drop)]
struct Devices {
    files: MemShelf,
    input: MemSource,
    out: MemSink,
    notes: MemSink,
}

/// The files and this input, and nothing that is to fail.
fn with_files(alloc: Global, input: &[u8]) -> Result<Devices, Fail> {
    let bytes = Vec::from_slice(alloc, input)?;
    let mut devices = Devices {
        files: MemShelf::new(alloc),
        input: MemSource::new(alloc, bytes),
        out: MemSink::new(alloc, 10_000)?,
        notes: MemSink::new(alloc, 1_000)?,
    };
    for (name, file) in &FILES {
        devices.files.put_file(name, file)?;
    }
    Ok(devices)
}

/// Has these calls fail.
fn fail(devices: &mut Devices, failing: Failing) -> Result<(), Fail> {
    let (read, put, take, note) = failing;
    devices.files.fail_call(read)?;
    devices.out.fail_call(put)?;
    devices.input.fail_call(take)?;
    devices.notes.fail_call(note)?;
    Ok(())
}

/// Makes a call, and answers its status.
fn call(alloc: Global, line: &[&str], devices: &mut Devices) -> Result<u8, Fail> {
    let mut words = Vec::new(alloc);
    for word in line {
        words.push(String::from_str(alloc, word)?)?;
    }
    Ok(cool(
        alloc,
        &words,
        &mut devices.files,
        &mut devices.input,
        &mut devices.out,
        &mut devices.notes,
    ))
}

/// The status of a call over this input of which some calls fail, and what it wrote.
fn outcome(
    alloc: Global,
    line: &[&str],
    input: &[u8],
    failing: Failing,
) -> Result<(u8, Devices), Fail> {
    let mut devices = with_files(alloc, input)?;
    fail(&mut devices, failing)?;
    let status = call(alloc, line, &mut devices)?;
    Ok((status, devices))
}

static ROWS: [Row; 35] = [
    // Each call of the program puts its own piece, and there is no eighth.
    (
        &["run", "list.cl", "main.cl"],
        b"3\n4\n0\n",
        (0, 1, 0, 0),
        8,
        b"",
        b"",
    ),
    (
        &["run", "list.cl", "main.cl"],
        b"3\n4\n0\n",
        (0, 2, 0, 0),
        8,
        b"4",
        b"",
    ),
    (
        &["run", "list.cl", "main.cl"],
        b"3\n4\n0\n",
        (0, 3, 0, 0),
        8,
        b"4\n",
        b"",
    ),
    (
        &["run", "list.cl", "main.cl"],
        b"3\n4\n0\n",
        (0, 4, 0, 0),
        8,
        b"4\n3",
        b"",
    ),
    (
        &["run", "list.cl", "main.cl"],
        b"3\n4\n0\n",
        (0, 5, 0, 0),
        8,
        b"4\n3\n",
        b"",
    ),
    (
        &["run", "list.cl", "main.cl"],
        b"3\n4\n0\n",
        (0, 6, 0, 0),
        8,
        b"4\n3\n7",
        b"",
    ),
    (
        &["run", "list.cl", "main.cl"],
        b"3\n4\n0\n",
        (0, 7, 0, 0),
        8,
        b"4\n3\n7\n",
        b"",
    ),
    (
        &["run", "list.cl", "main.cl"],
        b"3\n4\n0\n",
        (0, 8, 0, 0),
        0,
        b"4\n3\n7\nCOOL program successfully executed\n",
        b"",
    ),
    // Each byte of the input is one take, and there is no seventh.
    (
        &["run", "list.cl", "main.cl"],
        b"3\n4\n0\n",
        (0, 0, 1, 0),
        7,
        b"",
        b"cool: read fault\n",
    ),
    (
        &["run", "list.cl", "main.cl"],
        b"3\n4\n0\n",
        (0, 0, 6, 0),
        7,
        b"",
        b"cool: read fault\n",
    ),
    (
        &["run", "list.cl", "main.cl"],
        b"3\n4\n0\n",
        (0, 0, 7, 0),
        0,
        b"4\n3\n7\nCOOL program successfully executed\n",
        b"",
    ),
    // Each file is one read, and the script the first.
    (
        &["run", "list.cl", "main.cl"],
        b"3\n4\n0\n",
        (1, 0, 0, 0),
        10,
        b"",
        b"cool: list.cl: read failed\n",
    ),
    (
        &["run", "list.cl", "main.cl"],
        b"3\n4\n0\n",
        (2, 0, 0, 0),
        10,
        b"",
        b"cool: main.cl: read failed\n",
    ),
    (
        &["debug", "script", "list.cl", "main.cl"],
        b"3\n4\n0\n",
        (2, 0, 0, 0),
        10,
        b"",
        b"cool: list.cl: read failed\n",
    ),
    // A string of 70 bytes is put in pieces of 64 and 6 bytes, an empty one in none, and the end text in one.
    (&["run", "long.cl"], b"", (0, 1, 0, 0), 8, b"", b""),
    (
        &["run", "long.cl"],
        b"",
        (0, 2, 0, 0),
        8,
        b"aaaaaaaaaaaaaaaaaaaaaaaaaaaaaaaaaaaaaaaaaaaaaaaaaaaaaaaaaaaaaaaa",
        b"",
    ),
    (
        &["run", "long.cl"],
        b"",
        (0, 3, 0, 0),
        8,
        b"aaaaaaaaaaaaaaaaaaaaaaaaaaaaaaaaaaaaaaaaaaaaaaaaaaaaaaaaaaaaaaaaaaaaaa",
        b"",
    ),
    (
        &["run", "long.cl"],
        b"",
        (0, 4, 0, 0),
        0,
        b"aaaaaaaaaaaaaaaaaaaaaaaaaaaaaaaaaaaaaaaaaaaaaaaaaaaaaaaaaaaaaaaaaaaaaaCOOL program successfully executed\n",
        b"",
    ),
    // All that came before a read or a write that fails is kept.
    (
        &["run", "question.cl"],
        b"x",
        (0, 0, 1, 0),
        7,
        b"n? ",
        b"cool: read fault\n",
    ),
    (&["run", "question.cl"], b"x", (0, 2, 0, 0), 8, b"n? ", b""),
    // An evaluation puts, takes and ends alike.
    (
        &["eval", "question.cl"],
        b"x",
        (0, 0, 1, 0),
        7,
        b"n? ",
        b"cool: read fault\n",
    ),
    (&["eval", "question.cl"], b"x", (0, 0, 1, 1), 8, b"n? ", b""),
    (&["eval", "question.cl"], b"x", (0, 2, 0, 0), 8, b"n? ", b""),
    (
        &["eval", "long.cl"],
        b"",
        (0, 2, 0, 0),
        8,
        b"aaaaaaaaaaaaaaaaaaaaaaaaaaaaaaaaaaaaaaaaaaaaaaaaaaaaaaaaaaaaaaaa",
        b"",
    ),
    (
        &["eval", "long.cl"],
        b"",
        (0, 3, 0, 0),
        8,
        b"aaaaaaaaaaaaaaaaaaaaaaaaaaaaaaaaaaaaaaaaaaaaaaaaaaaaaaaaaaaaaaaaaaaaaa",
        b"",
    ),
    // Each line of the notes is put by itself.
    (&["run", "none.cl"], b"", (0, 0, 0, 1), 8, b"", b""),
    (&["check", "cycle.cl"], b"", (0, 0, 0, 1), 8, b"", b""),
    (
        &["check", "cycle.cl"],
        b"",
        (0, 0, 0, 2),
        8,
        b"",
        b"cycle.cl:1: C6: no class Main\n",
    ),
    (
        &["debug", "script", "long.cl"],
        b"",
        (0, 0, 0, 2),
        8,
        b"",
        b"at 0x00400004 after 1\n",
    ),
    // So is each line of a reply.
    (
        &["session"],
        b"file a 1\nxcheck\nquit\n",
        (0, 2, 0, 0),
        8,
        b"faults 1, typed 0\n",
        b"",
    ),
    // A note of one line is one put.
    (&["exec", "char.s"], b"x", (0, 1, 0, 0), 8, b"", b""),
    (
        &["exec", "char.s"],
        b"x",
        (0, 0, 1, 0),
        7,
        b"A",
        b"cool: read fault\n",
    ),
    (&["exec", "char.s"], b"x", (0, 0, 0, 1), 8, b"A", b""),
    (&["exec", "char.s"], b"x", (0, 0, 1, 1), 8, b"A", b""),
    (
        &["exec", "char.s"],
        b"x",
        (0, 0, 0, 2),
        4,
        b"A",
        b"cool: heap limit\n",
    ),
];

#[test]
fn failing_devices(rt: HostRuntime) -> Result<(), Fail> {
    for row in &ROWS {
        let (line, input, failing, status, out, notes) = *row;
        let (came, devices) = outcome(rt.alloc(), line, input, failing)?;
        let written = (came, devices.out.held(), devices.notes.held());
        assert_eq!(rt; written, (status, out, notes), "{line:?} {failing:?}");
    }
    Ok(())
}

/// An image is put in pieces of 4,096 bytes, the last one shorter: which put fails, the status, and how many bytes came, at least and
/// at most.
const PIECES: [(u64, u8, usize, usize); 3] = [
    (1, 8, 0, 0),
    (2, 8, 4_096, 4_096),
    (3, 0, 4_097, 8_191),
];

#[test]
fn pieces_of_an_image(rt: HostRuntime) -> Result<(), Fail> {
    for (put, status, least, most) in PIECES {
        let build = ["build", "twelve.cl"];
        let (came, devices) = outcome(rt.alloc(), &build, b"", (0, put, 0, 0))?;
        let length = devices.out.held().len();
        assert!(rt;
            came == status && least <= length && length <= most,
            "{put}"
        );
    }
    Ok(())
}
