// What is written of some files, into which buffers, and that it reads back.
use super::write;
use model::Decline;
use station::StationFile;
use std::process::Abort;
use std::test::Fail;

// A file of 200 variables with these clauses.
fn filled(clauses: &[&[i32]]) -> StationFile {
    let mut file = StationFile::new();
    let _ = file.start(200, 7);
    for literals in clauses {
        let _ = file.enter(*literals);
    }
    file
}

// Bytes that nobody wrote.
fn untouched(rt: &impl Abort, bytes: &[u8]) {
    for byte in bytes {
        assert_eq!(rt; *byte, b'.');
    }
}

// Writes a file into too few of the bytes of a buffer, then into just enough, then into all.
fn writes(rt: &impl Abort, file: &StationFile, text: &[u8], buffer: &mut [u8]) {
    let n = text.len();
    assert!(rt; n > 0 && n <= buffer.len());
    assert_eq!(rt;
        write(file, &mut buffer[0..n - 1]),
        Err(Decline::ShortBuffer)
    );
    untouched(rt, buffer);
    assert_eq!(rt; write(file, &mut buffer[0..n]), Ok(n));
    assert_eq!(rt; write(file, buffer), Ok(n));
    assert!(rt; &buffer[0..n] == text);
    untouched(rt, &buffer[n..]);
}

#[test]
fn texts_of_files(rt: HostRuntime) {
    writes(&rt, &filled(&[]), b"p cnf 200 0\n", &mut [b'.'; 64]);
    writes(&rt, &filled(&[&[]]), b"p cnf 200 1\n0\n", &mut [b'.'; 64]);
    writes(
        &rt,
        &filled(&[&[-1, 20, -200], &[99, -10, 100], &[7]]),
        b"p cnf 200 3\n-1 20 -200 0\n99 -10 100 0\n7 0\n",
        &mut [b'.'; 64],
    );
}

#[test]
fn a_file_never_started(rt: HostRuntime) {
    let mut buffer = [b'.'; 64];
    assert_eq!(rt;
        write(&StationFile::new(), &mut buffer),
        Err(Decline::NotStarted)
    );
    untouched(&rt, &buffer);
    assert_eq!(rt;
        write(&StationFile::new(), &mut buffer[0..0]),
        Err(Decline::NotStarted)
    );
}

#[test]
fn written_and_read_back(rt: HostRuntime) -> Result<(), Fail> {
    let file = filled(&[&[-1, 20, -200], &[], &[99, -10]]);
    let mut buffer = [0; 64];
    let n = write(&file, &mut buffer).ok().ok_or("not written")?;
    assert!(rt; n <= 64);
    let mut back = filled(&[]);
    assert_eq!(rt; back.read(&buffer[0..n]), Ok(3));
    for k in 1..=3 {
        assert!(rt; back.show(k).is_some());
        assert!(rt; back.show(k) == file.show(k));
    }
    assert!(rt; back.show(4).is_none());
    Ok(())
}
