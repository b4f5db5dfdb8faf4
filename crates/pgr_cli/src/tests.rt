use crate::exit_status;
use crate::file_store::FileStore;
use crate::stream_sink::StreamSink;
use pgr_outside::{Failed, ReadRefused, Store, read_file, write_all};
use std::test::Fail;
use std::{env, fs};

#[test]
fn a_stream_is_read_from_its_file_and_what_the_system_refuses_has_failed(
    rt: HostRuntime,
) -> Result<(), Fail> {
    let folder = env::temp_dir(&rt)?;
    let name = format!(in rt.alloc(); "{}/pgr_cli_streams.csv", folder.as_path().display())?;
    let mut sink = StreamSink::new(fs::create(&rt, name.as_str())?);
    write_all(&mut sink, b"id,source\n1,2\n")?;
    let mut store = FileStore::new(&rt, rt.alloc());
    let bytes = read_file(rt.alloc(), &mut store, name.as_str(), 100)?;
    assert_eq!(rt; bytes.as_slice(), b"id,source\n1,2\n".as_slice());
    let mut middle = [0u8; 6];
    let count = store.read_at(name.as_str(), 3, &mut middle)?;
    assert_eq!(rt; count, 6);
    assert_eq!(rt; middle.as_slice(), b"source".as_slice());
    for name in ["/no/such/folder/edges.csv", "/"] {
        let refused = read_file(rt.alloc(), &mut store, name, 100);
        assert_eq!(rt; refused.err(), Some(ReadRefused::Failed), "{name}");
    }
    let mut shut = StreamSink::new(fs::open(&rt, name.as_str())?);
    assert_eq!(rt; write_all(&mut shut, b"3,4\n"), Err(Failed));
    fs::remove_file(&rt, name.as_str())?;
    Ok(())
}

#[test]
fn arguments_that_are_no_command_end_with_status_2(rt: HostRuntime) {
    assert_eq!(rt; exit_status(&rt), 2);
}
