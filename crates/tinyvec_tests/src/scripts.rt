//! A script or a run that answers a line otherwise, or that gives up where memory is granted, would pass the check, if a contract
//! has the same mistake.
use crate::failing::{Closing, Failing, Interrupted, note_calls};
use crate::lists::{holds, lends, lies};
use crate::steps::{all_steps, granted_steps};
use std::alloc::{AllocError, Global};
use std::cell::Cell;
use std::io::Write;
use std::str;
use std::test::Fail;
use tinyvec::{ArrayVec, NoMemory, SliceVec, TinyVec};
use tinyvec_io::Counted;
use tinyvec_script::{
    Answer, Call, Driven, End, RunError, drive_array_splice, drive_tiny_splice, run, run_array,
    run_slice, run_tiny,
};

type Bytes = TinyVec<[u8; 256]>;

// The answers to a script over memory. `None` says that one tells of a refused request.
fn answers(alloc: Global, script: &[u8]) -> Option<Bytes> {
    let mut writer = Counted::new(Bytes::new(alloc));
    let _ok = run(alloc, &mut Counted::new(script), &mut writer);
    let written = writer.into_inner();
    let is_refused = str::from_utf8(written.as_slice()).is_ok_and(|text| text.contains("memory"));
    if is_refused { None } else { Some(written) }
}

const SCRIPT: [(&[u8], &[u8]); 3] = [
    (b"A push 1\n", b"ok [1] [0, 0, 0]\n"),
    (b"A push 2\n", b"ok [1, 2] [0, 0]\n"),
    (b"A drain 0 1\n", b"items [1] [2] [0, 0, 0]\n"),
];

// The script and its answers, with one bad line before the line of that number.
fn with_a_bad_line(alloc: Global, bad: &[u8], place: usize) -> (Bytes, Bytes) {
    let mut lines = Bytes::new(alloc);
    let mut answers = Bytes::new(alloc);
    for (at, (line, answer)) in SCRIPT.iter().enumerate() {
        if at == place {
            let _written = lines.write_all(bad).is_ok() & answers.write_all(b"bad\n").is_ok();
        }
        let _written = lines.write_all(line).is_ok() & answers.write_all(answer).is_ok();
    }
    if place == SCRIPT.len() {
        let _written = lines.write_all(bad).is_ok() & answers.write_all(b"bad\n").is_ok();
    }
    (lines, answers)
}

#[test]
fn a_bad_line_at_each_place(rt: HostRuntime) -> Result<(), Fail> {
    let mut is_refused = false;
    let mut is_right = true;
    for bad in [
        b"\n".as_slice(),
        b"A\n".as_slice(),
        b"Q pop\n".as_slice(),
        b"A pop\r\n".as_slice(),
        b"\xff\n".as_slice(),
    ] {
        for place in 0..=SCRIPT.len() {
            let (lines, wanted) = with_a_bad_line(rt.alloc(), bad, place);
            match answers(rt.alloc(), lines.as_slice()) {
                Some(written) => is_right &= written == wanted,
                None => is_refused = true,
            }
        }
    }
    granted_steps(is_refused, &[is_right])
}

// A text of four bytes is inline, and a longer one is on the heap.
#[test]
fn a_text_that_moves(rt: HostRuntime) -> Result<(), Fail> {
    let script = b"X add a b\nX add  c\nX cut 9\nX cut 0\nX cut 0 0\n";
    let wanted = b"ok [a b] inline\nok [a b c] heap\nrange [a b c] heap\nok [] heap\nbad\n";
    match answers(rt.alloc(), script) {
        Some(written) => all_steps(&[written.as_slice() == wanted.as_slice()]),
        None => granted_steps(true, &[]),
    }
}

// The lines before are answered.
#[test]
fn a_reader_that_fails_in_a_line(rt: HostRuntime) -> Result<(), Fail> {
    let mut reader = Counted::new(Failing {
        left: b"A push 1\nA pu",
    });
    let mut writer = Counted::new(Bytes::new(rt.alloc()));
    let ended = run(rt.alloc(), &mut reader, &mut writer);
    let written = writer.into_inner();
    all_steps(&[
        ended == Err(RunError::Read),
        written.as_slice() == b"ok [1] [0, 0, 0]\n".as_slice(),
    ])
}

const ECHO: &[u8] = b"A push 1\nX add h\xc3\xa9\nS pop\nA pop";

const ECHOED: &[u8] =
    b"ok [1] [0, 0, 0]\nok [h\xc3\xa9] inline\nnone [] [0, 0, 0, 0]\nsome 1 [] [0, 0, 0, 0]\n";

// How long the answers are to the lines that end within so many bytes.
fn answered_len(count: usize) -> usize {
    match count {
        0..9 => 0,
        9..19 => 17,
        19..25 => 33,
        _ => 54,
    }
}

// At each byte of the input, and of the output, where nothing more is asked.
#[test]
fn failing_at_each_byte(rt: HostRuntime) -> Result<(), Fail> {
    let alloc = rt.alloc();
    let mut is_right = match answers(alloc, ECHO) {
        Some(written) => written.as_slice() == ECHOED,
        None => false,
    };
    for count in 0..ECHO.len() {
        let mut reader = Counted::new(Failing {
            left: &ECHO[..count],
        });
        let mut writer = Counted::new(Bytes::new(alloc));
        is_right &= run(alloc, &mut reader, &mut writer) == Err(RunError::Read);
        is_right &= ECHOED.get(..answered_len(count)) == Some(writer.into_inner().as_slice());
    }
    for room in 0..=ECHOED.len() {
        let mut writer = Counted::new(Closing { room });
        is_right &= run(alloc, &mut Counted::new(ECHO), &mut writer) == Err(RunError::Write);
        is_right &= writer.into_inner().room == 0;
    }
    all_steps(&[is_right])
}

// An interruption before each byte loses none.
#[test]
fn interrupted_at_each_byte(rt: HostRuntime) -> Result<(), Fail> {
    let mut reader = Counted::new(Interrupted {
        inner: ECHO,
        is_next: true,
    });
    let mut writer = Counted::new(Interrupted {
        inner: Bytes::new(rt.alloc()),
        is_next: true,
    });
    let is_run = run(rt.alloc(), &mut reader, &mut writer).is_ok();
    let are_noted = (reader.faults() == 31) & (writer.faults() == 77);
    all_steps(&[
        is_run & are_noted,
        writer.into_inner().inner.as_slice() == ECHOED,
    ])
}

// All lines that were read are answered before more is read, and the writer is flushed at the end.
#[test]
fn in_turn(rt: HostRuntime) -> Result<(), Fail> {
    let asked = Cell::new(0);
    let mut writer = note_calls(b"", 99, &asked);
    let is_run = run(
        rt.alloc(),
        &mut note_calls(b"A pop\nA pop\nA pop", 8, &asked),
        &mut writer,
    )
    .is_ok();
    let in_pieces = asked.replace(0) == 12121123;
    let at_once = run(
        rt.alloc(),
        &mut note_calls(b"A pop\nA pop\n", 4096, &asked),
        &mut writer,
    )
    .is_ok();
    all_steps(&[is_run, in_pieces, at_once, asked.get() == 1213])
}

// A list of these items, or what is told of it where memory is refused.
fn list(alloc: Global, items: &[i32]) -> Result<Vec<i32>, AllocError> {
    let mut list = Vec::with_capacity(alloc, items.len())?;
    list.extend_from_slice(items)?;
    Ok(list)
}

#[test]
fn a_driven_splice_of_an_array(rt: HostRuntime) -> Result<(), Fail> {
    let mut v = ArrayVec::from_array_len([1, 2, 3, 0], 3);
    let new = list(rt.alloc(), &[7, 8, 9])?;
    match drive_array_splice(rt.alloc(), &mut v, 1, 2, new, &[End::Back]) {
        Ok(Driven { yields, rest }) => all_steps(&[
            (yields.as_slice() == [2].as_slice()) & (rest.as_slice() == [8].as_slice()),
            holds(&v, &[1, 7, 9, 3], &[]),
        ]),
        Err(NoMemory(new)) => granted_steps(
            (new.as_slice() == [7, 8, 9].as_slice()) & holds(&v, &[1, 2, 3], &[0]),
            &[false],
        ),
    }
}

#[test]
fn a_driven_splice_that_moves(rt: HostRuntime) -> Result<(), Fail> {
    let mut v = TinyVec::from_array(rt.alloc(), [1, 2, 3, 4]);
    let new = list(rt.alloc(), &[7, 8, 9])?;
    match drive_tiny_splice(rt.alloc(), &mut v, 1, 3, new, &[End::Back, End::Front]) {
        Ok(Driven { yields, rest }) => granted_steps(
            (rest.as_slice() == [8].as_slice()) & lies(&v, &[1, 7, 9, 4], true),
            &[
                (yields.as_slice() == [3, 2].as_slice()) & rest.is_empty(),
                lies(&v, &[1, 7, 8, 9, 4], false),
            ],
        ),
        Err(NoMemory(new)) => granted_steps(
            (new.as_slice() == [7, 8, 9].as_slice()) & lies(&v, &[1, 2, 3, 4], true),
            &[false],
        ),
    }
}

// The calls of a run: of four items two are taken, and one is put in.
fn calls(alloc: Global) -> Result<Vec<Call<i32>>, AllocError> {
    let mut calls = Vec::with_capacity(alloc, 4)?;
    calls.push(Call::Drain(1, 3))?;
    calls.push(Call::Push(5))?;
    calls.push(Call::Drain(2, 9))?;
    calls.push(Call::Reserve(1))?;
    Ok(calls)
}

// Whether these are the answers of a run whose vector has no `reserve`, or as one that has it.
fn are_answers(answers: &[Answer<i32>], last: Answer<i32>) -> bool {
    let [Answer::Items(items), Answer::Done, Answer::Range, end] = answers else {
        return false;
    };
    (items.as_slice() == [2, 3].as_slice()) & (*end == last)
}

#[test]
fn a_run_of_an_array(rt: HostRuntime) -> Result<(), Fail> {
    let mut v = ArrayVec::from_array([1, 2, 3, 4]);
    match run_array(rt.alloc(), &mut v, calls(rt.alloc())?) {
        Ok(answers) => granted_steps(
            matches!(answers.as_slice(), [Answer::Memory, Answer::Full, ..]) & v.is_full(),
            &[
                are_answers(answers.as_slice(), Answer::Unfit),
                holds(&v, &[1, 4, 5], &[0]),
            ],
        ),
        Err(NoMemory(calls)) => granted_steps((calls.len() == 4) & v.is_full(), &[false]),
    }
}

#[test]
fn a_run_of_lent_slots(rt: HostRuntime) -> Result<(), Fail> {
    let mut slots = [1, 2, 3, 4];
    let mut v = SliceVec::from_slice_len(&mut slots, 4);
    match run_slice(rt.alloc(), &mut v, calls(rt.alloc())?) {
        Ok(answers) => granted_steps(
            matches!(answers.as_slice(), [Answer::Memory, Answer::Full, ..]) & v.is_full(),
            &[
                are_answers(answers.as_slice(), Answer::Unfit),
                lends(&v, &[1, 4, 5], &[0]),
            ],
        ),
        Err(NoMemory(calls)) => granted_steps((calls.len() == 4) & v.is_full(), &[false]),
    }
}

#[test]
fn a_run_of_a_tiny_vec(rt: HostRuntime) -> Result<(), Fail> {
    let mut v = TinyVec::from_array(rt.alloc(), [1, 2, 3, 4]);
    match run_tiny(rt.alloc(), &mut v, calls(rt.alloc())?) {
        Ok(answers) => granted_steps(
            matches!(answers.as_slice(), [Answer::Memory, ..]),
            &[
                are_answers(answers.as_slice(), Answer::Done),
                lies(&v, &[1, 4, 5], true),
            ],
        ),
        Err(NoMemory(calls)) => granted_steps((calls.len() == 4) & (v.len() == 4), &[false]),
    }
}
