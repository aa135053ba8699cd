//! Scripts that are printed, and read again.
use kt_script::{print_script, read_script};
use std::alloc::Global;

// Whether the script of a text is printed so.
fn prints(alloc: Global, text: &[u8], wanted: &[u8]) -> bool {
    let Ok(script) = read_script(alloc, text) else {
        return false;
    };
    match print_script(alloc, &script) {
        Ok(printed) => printed.as_slice() == wanted,
        Err(_) => false,
    }
}

// Texts that are printed as they stand.
const SAME: [&[u8]; 4] = [
    b"table\ncolumn id int64 key\ncolumn v string\nsession\ninsert 1 \"a\"\nscan at 4096\nsession\nsession\ninsert 2 \"b\"\nmark 8192\nscan at 8191 select v,id where id>0 and v is not null\n",
    b"table\ncolumn host string key\ncolumn tick int64 key\ncolumn cpu int32 nullable\ncolumn up bool default true\nsession\ninsert \"db1\" 100 57 true ; insert \"db2\" 100 null false\nupsert \"db1\" 100 cpu=58\nupsert \"web\" 90 cpu=1\ndelete \"db2\" 100\nscan now select host,cpu where cpu>0\n",
    b"table\ncolumn id int64 key\ncolumn v string\nsession\ninsert-ignore 1 \"b\" ; insert-ignore -2 \"\"\nupdate-ignore 9 v=\"x\" ; delete-ignore 2\n",
    b"table\ncolumn k binary key\ncolumn note string nullable default \"a b\"\ncolumn n int8\nsession\nupdate x\"00ff\" note=\"\\x00\\\"=;\" n=-128\nscan now where note is not null and n<=7 and k>=x\"\" and note is null\n",
];

// A text whose names are printed in the order of the schema.
const NAMED: &[u8] =
    b"table\ncolumn k int8 key\ncolumn a int8\ncolumn b int8\nsession\nupdate 1 b=2 a=3\n";

const IN_ORDER: &[u8] =
    b"table\ncolumn k int8 key\ncolumn a int8\ncolumn b int8\nsession\nupdate 1 a=3 b=2\n";

#[test]
fn scripts_are_printed_and_read_again(rt: HostRuntime) {
    for text in SAME {
        assert!(rt; prints(rt.alloc(), text, text));
    }
    assert!(rt; prints(rt.alloc(), NAMED, IN_ORDER));
}
