//! Files as a sink and as a source.
use crate::{Failed, Reading, Sink, Source, Writing, read_all, write_all};
use std::fs::File;
use std::test::Fail;
use std::{env, fs, process};

#[test]
fn a_file_gives_what_was_written_to_it(rt: HostRuntime) -> Result<(), Fail> {
    let alloc = rt.alloc();
    let name = format!(in alloc; "conn-test-{}", process::id(rt.process()))?;
    let path = env::temp_dir(&rt)?.join(alloc, name.as_str())?;
    let mut sink = Writing::new(File::create(&rt, path.as_path())?);
    assert_eq!(rt; write_all(&mut sink, b"an evening"), Ok(()));
    let mut source = Reading::new(File::open(&rt, path.as_path())?);
    let Ok(bytes) = read_all(alloc, &mut source, 10) else {
        return Err("a fault")?;
    };
    assert_eq!(rt; bytes.as_slice(), b"an evening".as_slice());
    // A file that was opened to be read takes nothing, and a folder has no bytes.
    let mut closed = Writing::new(File::open(&rt, path.as_path())?);
    assert_eq!(rt; closed.write(b"x"), Err(Failed));
    fs::remove_file(&rt, path.as_path())?;
    let mut folder = Reading::new(File::open(&rt, "/")?);
    assert_eq!(rt; folder.read(&mut [0u8; 4]), Err(Failed));
    Ok(())
}
