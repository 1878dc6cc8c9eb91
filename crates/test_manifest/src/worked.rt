//! A manifest, by its bytes. Its check was worked out apart from this code.
use manifest::{FileMark, ManifestHead, read_manifest};
use std::test::Fail;

/// A database with one table of two columns.
pub(crate) const ITEMS: &[u8] = b"narthexmace 1\n\
database fedcba9876543210 0123456789abcdef\n\
at 302 7\n\
next 2 4\n\
table 1 300 3 65536 2147483647 0 2 items\n\
21 5f0c2d5e\n\
120 8a1f3b07\n\
88 00c4d911\n\
end b1b2a290\n";

/// A database without a table.
const EMPTY: &[u8] =
    b"narthexmace 1\ndatabase fedcba9876543210 0123456789abcdef\nat 0 1\nnext 1 1\nend 7bf69071\n";

#[test]
fn a_manifest_is_read(rt: HostRuntime) -> Result<(), Fail> {
    let read = read_manifest(rt.alloc(), ITEMS)?;
    let head = ManifestHead {
        store: 0xfedc_ba98_7654_3210,
        salt: 0x0123_4567_89ab_cdef,
        commit: 302,
        first_file: 7,
        next_table: 2,
        next_folder: 4,
    };
    assert!(&rt; read.head == head);
    assert!(&rt; read.tables.len() == 1);
    for table in &read.tables {
        let line = &table.line;
        assert!(&rt; (line.number, line.commit, line.folder) == (1, 300, 3));
        assert!(&rt; (line.recent, line.limit, line.by_row) == (65_536, 2_147_483_647, false));
        assert!(&rt; line.width == 2);
        assert!(&rt; line.name == b"items".as_slice());
        assert!(&rt;
            table.header
                == FileMark {
                    size: 21,
                    check: 0x5f0c_2d5e
                }
        );
        let columns = [
            FileMark {
                size: 120,
                check: 0x8a1f_3b07,
            },
            FileMark {
                size: 88,
                check: 0x00c4_d911,
            },
        ];
        assert!(&rt; table.columns.as_slice() == columns.as_slice());
    }
    Ok(())
}

#[test]
fn a_database_may_have_no_table(rt: HostRuntime) -> Result<(), Fail> {
    let read = read_manifest(rt.alloc(), EMPTY)?;
    assert!(&rt; read.tables.is_empty());
    assert!(&rt; (read.head.commit, read.head.first_file) == (0, 1));
    Ok(())
}
