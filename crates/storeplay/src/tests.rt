use crate::play::{play_bytes, play_words};
use std::process::Abort;
use std::test::Fail;
use stores::{Access, ByteImage, NoSuchCell, Reply, Store, WordTable};

// A store of this size: both ends hold what is put there, and the first place past the end is refused.
fn check_store<S: Store>(rt: &impl Abort, store: &mut S, size: usize) {
    assert_eq!(rt; store.size(), size);
    assert_eq!(rt; store.put(size, 5), Err(NoSuchCell));
    assert_eq!(rt; store.load(size), None);
    if let Some(last) = size.checked_sub(1) {
        assert_eq!(rt; store.put(0, 4294967295), Ok(()));
        assert_eq!(rt; store.load(0), Some(4294967295));
        assert_eq!(rt; store.put(last, 16909060), Ok(()));
        assert_eq!(rt; store.load(last), Some(16909060));
    }
}

#[test]
fn tables(rt: HostRuntime) -> Result<(), Fail> {
    for (cells, size) in [
        (0, 0),
        (1, 1),
        (65535, 65535),
        (65536, 65536),
        (65537, 65536),
    ] {
        let mut words = vec![in rt.alloc(); 7; cells]?;
        check_store(&rt, &mut WordTable::new(words.as_mut_slice()), size);
        assert_eq!(rt; words.get(65536).copied(), (cells > 65536).then_some(7));
    }
    Ok(())
}

#[test]
fn images(rt: HostRuntime) -> Result<(), Fail> {
    for (length, size) in [
        (0, 0),
        (1, 0),
        (2, 0),
        (3, 0),
        (4, 1),
        (5, 1),
        (6, 1),
        (7, 1),
        (8, 2),
        (9, 2),
        (262143, 65535),
        (262144, 65536),
        (262151, 65536),
    ] {
        let mut bytes = vec![in rt.alloc(); 7u8; length]?;
        check_store(&rt, &mut ByteImage::new(bytes.as_mut_slice()), size);
        let used = size.saturating_mul(4);
        if length > used {
            assert_eq!(rt; bytes.get(used).copied(), Some(7));
        }
    }
    Ok(())
}

#[test]
fn layout(rt: HostRuntime) {
    let requests = [
        Access::Load(1),
        Access::Put(1, 16909060),
        Access::Put(2, 1),
        Access::Size,
    ];
    let mut replies = [Ok(Reply::Done); 5];
    let mut bytes = [1, 0, 0, 0, 0, 1, 0, 0, 7];
    assert_eq!(rt; play_bytes(&mut bytes, &requests, &mut replies), 4);
    assert_eq!(rt; bytes, [1, 0, 0, 0, 4, 3, 2, 1, 7]);
    assert_eq!(rt;
        replies,
        [
            Ok(Reply::Word(256)),
            Ok(Reply::Done),
            Err(NoSuchCell),
            Ok(Reply::Size(2)),
            Ok(Reply::Done),
        ]
    );
    let mut cells = [1, 256];
    assert_eq!(rt; play_words(&mut cells, &requests, &mut replies), 4);
    assert_eq!(rt; cells, [1, 16909060]);
    assert_eq!(rt;
        replies,
        [
            Ok(Reply::Word(256)),
            Ok(Reply::Done),
            Err(NoSuchCell),
            Ok(Reply::Size(2)),
            Ok(Reply::Done),
        ]
    );
}
