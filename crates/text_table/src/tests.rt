use crate::{Side, Table};
use std::test::Fail;

// The text of a table behind a `>`: its columns by a letter each, `l` for left and `r` for right,
// and its rows by their entries with a bar between them.
fn printed(rt: &HostRuntime, sides: &str, rows: &[&str]) -> Result<Vec<u8>, Fail> {
    let mut columns = Vec::new(rt.alloc());
    for letter in sides.bytes() {
        columns.push(if letter == b'r' {
            Side::Right
        } else {
            Side::Left
        })?;
    }
    let mut table = Table::new(rt.alloc(), columns);
    for row in rows {
        let mut entries = Vec::new(rt.alloc());
        for entry in row.split('|') {
            entries.push(String::from_str(rt.alloc(), entry)?)?;
        }
        table.push(entries)?;
    }
    let mut text = Vec::new(rt.alloc());
    text.push(b'>')?;
    table.write(rt.alloc(), &mut text)?;
    Ok(text)
}

#[test]
fn columns_are_as_wide_as_their_widest_entry(rt: HostRuntime) -> Result<(), Fail> {
    let cases: [(&str, &[&str], &str); 9] = [
        // no row, and no column
        ("lr", &[], ">"),
        ("", &["a|b", "c"], ">\n\n"),
        // one column, of words and of numbers
        ("l", &["DARK", "solo", "a"], ">DARK\nsolo\na\n"),
        ("r", &["N", "10", "9"], "> N\n10\n 9\n"),
        // a header wider than its entries, and one that is narrower
        (
            "lrl",
            &["LOST|CELLS|VERDICT", "z1|20|room"],
            ">LOST  CELLS  VERDICT\nz1       20  room\n",
        ),
        (
            "lrl",
            &["L|C|V", "zone|20|short"],
            ">L      C  V\nzone  20  short\n",
        ),
        // no space at the end of a line, also of an entry's own
        (
            "ll",
            &["TAG|TAGS", "-|", "iso|a "],
            ">TAG  TAGS\n-\niso  a\n",
        ),
        // a row that ends early, and one with more entries than columns
        (
            "lr",
            &["A|B", "long", "x|12|passed over"],
            ">A      B\nlong\nx     12\n",
        ),
        // bytes are counted, and not what is seen: the e with its accent has two
        ("ll", &["é|x", "a|y"], ">é  x\na   y\n"),
    ];
    for (sides, rows, wanted) in cases {
        let text = printed(&rt, sides, rows)?;
        assert_eq!(rt; text.as_slice(), wanted.as_bytes(), "at {sides} {rows:?}");
    }
    Ok(())
}

// Tables that headroom prints, each as it stands in its worked cases.
#[test]
fn tables_of_worked_cases(rt: HostRuntime) -> Result<(), Fail> {
    let cases: [(&str, &[&str], &[&str]); 5] = [
        (
            "lrrrrrrrl",
            &[
                "TAG|CELLS LEFT|JOBS|NO ROOM|MEMORY ASKED|FREE|DISK ASKED|FREE|VERDICT",
                "-|4|1|1|2048M|7680M|4096M|21G|short",
                "iso|1|0|0|0M|4096M|0M|8192M|room",
            ],
            &[
                "TAG  CELLS LEFT  JOBS  NO ROOM  MEMORY ASKED   FREE  DISK ASKED   FREE  VERDICT",
                "-             4     1        1         2048M  7680M       4096M    21G  short",
                "iso           1     0        0            0M  4096M          0M  8192M  room",
            ],
        ),
        (
            "llrrllrrll",
            &[
                "NO ROOM FOR|INSTANCES|MEMORY|DISK|TAG|CELLS LACK|OTHER TAG|MOST FREE|AS LARGE|WAITED",
                "a|0|400M|100M|-|none has the tag|2|0M|2, room for 0|",
                "s|0|600M|100M|iso|1 memory|3|400M|1, room for 0|",
            ],
            &[
                "NO ROOM FOR  INSTANCES  MEMORY  DISK  TAG  CELLS LACK        OTHER TAG  MOST FREE  AS LARGE       WAITED",
                "a            0            400M  100M  -    none has the tag          2         0M  2, room for 0",
                "s            0            600M  100M  iso  1 memory                  3       400M  1, room for 0",
            ],
        ),
        (
            "rllrrll",
            &[
                "STEP|ZONE|TAG|NEED ROOM|NO ROOM|VERDICT|CELLS",
                "1|z1|-|2|1|short|c1 c2",
            ],
            &[
                "STEP  ZONE  TAG  NEED ROOM  NO ROOM  VERDICT  CELLS",
                "   1  z1    -            2        1  short    c1 c2",
            ],
        ),
        (
            "lrl",
            &[
                "UNEVEN|BY|ZONES",
                "web|3|z1 3, z2 1, z3 0",
                "near|2|z1 2, z2 0, z3 0",
                "solo|2|z1 2, z2 0, z3 0",
            ],
            &[
                "UNEVEN  BY  ZONES",
                "web      3  z1 3, z2 1, z3 0",
                "near     2  z1 2, z2 0, z3 0",
                "solo     2  z1 2, z2 0, z3 0",
            ],
        ),
        ("l", &["DARK", "near", "solo"], &["DARK", "near", "solo"]),
    ];
    for (sides, rows, lines) in cases {
        let text = printed(&rt, sides, rows)?;
        let mut wanted = String::from_str(rt.alloc(), ">")?;
        for line in lines {
            wanted.push_str(line)?;
            wanted.push('\n')?;
        }
        assert_eq!(rt; text.as_slice(), wanted.as_bytes(), "at {sides}");
    }
    Ok(())
}
