//! Whole runs over modules that files `.tfrules` govern.

use crate::checks::PIPES;
use command_line::Streams;
use hcl_scan::{MemorySink, MemorySource};
use lint_command::run::program;
use std::alloc::{AllocError, Global};
use std::process::Abort;
use tfrules_command::Hashing;
use tree_devices::calls::{Calls, Failures, STEADY, Step};
use tree_devices::entry::{MemoryEntry, Stands};
use tree_devices::memory_tree::MemoryTree;
use tree_lint::module_tree::ModuleTree;

/// The full path of the current folder.
const HERE: &[u8] = b"/r/w";

/// Words of a line.
type Words = &'static [&'static [u8]];

/// A module with an untyped variable that nothing refers to, so with two issues.
const FILE: &[u8] = b"variable \"x\" {}\n";

const FOLDER: Stands<'static> = Stands::Folder;

/// A run over a tree, and its output.
struct Row {
    /// The entries beside two modules.
    entries: &'static [MemoryEntry<'static>],
    words: Words,
    /// How many issues are found in the modules that are linted, and the other messages.
    err: &'static [u8],
    status: u8,
}

/// Two modules, one in the folder of the other.
static MODULES: [MemoryEntry<'static>; 5] = [
    MemoryEntry {
        name: b"",
        stands: FOLDER,
    },
    MemoryEntry {
        name: b"a",
        stands: FOLDER,
    },
    MemoryEntry {
        name: b"a/main.tf",
        stands: Stands::File(FILE),
    },
    MemoryEntry {
        name: b"a/b",
        stands: FOLDER,
    },
    MemoryEntry {
        name: b"a/b/main.tf",
        stands: Stands::File(FILE),
    },
];

static ROWS: [Row; 25] = [
    // No file governs.
    Row {
        entries: &[],
        words: &[b"tfrules-all", b"a"],
        err: b"4 issues in 2 of 2 modules\n",
        status: 2,
    },
    // The nearest file governs, in the folder of a module or above it.
    Row {
        entries: &[MemoryEntry {
            name: b"a/.tfrules",
            stands: Stands::File(b"--rules terraform_typed_variables\n"),
        }],
        words: &[b"tfrules-all", b"a"],
        err: b"2 issues in 2 of 2 modules\n",
        status: 2,
    },
    Row {
        entries: &[
            MemoryEntry {
                name: b"a/.tfrules",
                stands: Stands::File(b"--rules terraform_typed_variables\n"),
            },
            MemoryEntry {
                name: b"a/b/.tfrules",
                stands: Stands::File(b"--force\n"),
            },
        ],
        words: &[b"tfrules-all", b"a"],
        err: b"3 issues in 2 of 2 modules\n",
        status: 2,
    },
    Row {
        entries: &[MemoryEntry {
            name: b".tfrules",
            stands: Stands::File(b"--force\n"),
        }],
        words: &[b"tfrules-all", b"a"],
        err: b"4 issues in 2 of 2 modules\n",
        status: 0,
    },
    // Up to the top of the repository, and no further.
    Row {
        entries: &[
            MemoryEntry {
                name: b"a/.tfrules",
                stands: Stands::File(b"--rules terraform_typed_variables\n"),
            },
            MemoryEntry {
                name: b"a/b/.git",
                stands: FOLDER,
            },
        ],
        words: &[b"tfrules-all", b"a"],
        err: b"3 issues in 2 of 2 modules\n",
        status: 2,
    },
    Row {
        entries: &[
            MemoryEntry {
                name: b"a/b/.tfrules",
                stands: Stands::File(b"--rules terraform_typed_variables\n"),
            },
            MemoryEntry {
                name: b"a/b/.git",
                stands: Stands::Link(b"nowhere"),
            },
        ],
        words: &[b"tfrules-all", b"a/b"],
        err: b"1 issue in 1 of 1 module\n",
        status: 2,
    },
    // The top may be above the current folder.
    Row {
        entries: &[
            MemoryEntry {
                name: b"/r/.tfrules",
                stands: Stands::File(b"--force\n"),
            },
            MemoryEntry {
                name: b"/r/.git",
                stands: FOLDER,
            },
        ],
        words: &[b"tfrules-all", b"a"],
        err: b"4 issues in 2 of 2 modules\n",
        status: 0,
    },
    // Outside a repository no file above the current folder governs.
    Row {
        entries: &[MemoryEntry {
            name: b"/r/.tfrules",
            stands: Stands::File(b"--force\n"),
        }],
        words: &[b"tfrules-all", b"a"],
        err: b"4 issues in 2 of 2 modules\n",
        status: 2,
    },
    Row {
        entries: &[
            MemoryEntry {
                name: b"/r/.tfrules",
                stands: Stands::File(b"--bogus\n"),
            },
            MemoryEntry {
                name: b".tfrules",
                stands: Stands::File(b"--rules terraform_typed_variables\n"),
            },
        ],
        words: &[b"tfrules-all", b"a"],
        err: b"2 issues in 2 of 2 modules\n",
        status: 2,
    },
    // A module elsewhere has the file of its own folder.
    Row {
        entries: &[
            MemoryEntry {
                name: b"/e",
                stands: FOLDER,
            },
            MemoryEntry {
                name: b"/e/.tfrules",
                stands: Stands::File(b"--bogus\n"),
            },
            MemoryEntry {
                name: b"/e/m",
                stands: FOLDER,
            },
            MemoryEntry {
                name: b"/e/m/main.tf",
                stands: Stands::File(FILE),
            },
        ],
        words: &[b"tfrules-all", b"/e/m"],
        err: b"2 issues in 1 of 1 module\n",
        status: 2,
    },
    Row {
        entries: &[
            MemoryEntry {
                name: b"/e",
                stands: FOLDER,
            },
            MemoryEntry {
                name: b"/e/.tfrules",
                stands: Stands::File(b"--force\n"),
            },
            MemoryEntry {
                name: b"/e/main.tf",
                stands: Stands::File(FILE),
            },
        ],
        words: &[b"tfrules-all", b"/e"],
        err: b"2 issues in 1 of 1 module\n",
        status: 0,
    },
    // No file is read if the words ask for that.
    Row {
        entries: &[MemoryEntry {
            name: b"a/.tfrules",
            stands: Stands::File(b"--bogus\n"),
        }],
        words: &[b"tfrules-all", b"--no-config", b"a"],
        err: b"4 issues in 2 of 2 modules\n",
        status: 2,
    },
    // The line takes precedence over the file, option by option.
    Row {
        entries: &[MemoryEntry {
            name: b"a/.tfrules",
            stands: Stands::File(b"--rules terraform_typed_variables\n--force\n"),
        }],
        words: &[
            b"tfrules-all",
            b"--rules",
            b"terraform_unused_declarations",
            b"a",
        ],
        err: b"2 issues in 2 of 2 modules\n",
        status: 0,
    },
    // A bad line is reported once, and the modules of its file are not linted.
    Row {
        entries: &[MemoryEntry {
            name: b"a/.tfrules",
            stands: Stands::File(b"--force\n--bogus\n"),
        }],
        words: &[b"tfrules-all", b"a"],
        err: b"tfrules-all: error: a/.tfrules:2: no option of a project: \"--bogus\"\n2 modules not linted: their options aren't known\n",
        status: 1,
    },
    Row {
        entries: &[MemoryEntry {
            name: b"a/b/.tfrules",
            stands: Stands::File(b"--force\n--force\n--naming x"),
        }],
        words: &[b"tfrules-all", b"a"],
        err: b"tfrules-all: error: a/b/.tfrules:2: given twice: \"--force\"\ntfrules-all: error: a/b/.tfrules:3: unknown naming \"x\"\n2 issues in 1 of 1 module\n1 module not linted: its options aren't known\n",
        status: 1,
    },
    Row {
        entries: &[MemoryEntry {
            name: b"a/b/.tfrules",
            stands: Stands::File(b"--bogus"),
        }],
        words: &[b"tfrules-all", b"--quiet", b"a"],
        err: b"tfrules-all: error: a/b/.tfrules:1: no option of a project: \"--bogus\"\n",
        status: 1,
    },
    Row {
        entries: &[
            MemoryEntry {
                name: b"/r/.tfrules",
                stands: Stands::File(b"--bogus"),
            },
            MemoryEntry {
                name: b"/r/.git",
                stands: FOLDER,
            },
        ],
        words: &[b"tfrules-all", b"a"],
        err: b"tfrules-all: error: /r/.tfrules:1: no option of a project: \"--bogus\"\n2 modules not linted: their options aren't known\n",
        status: 1,
    },
    // A folder without modules needs no options.
    Row {
        entries: &[
            MemoryEntry {
                name: b"n",
                stands: FOLDER,
            },
            MemoryEntry {
                name: b"n/.tfrules",
                stands: Stands::File(b"--bogus\n"),
            },
        ],
        words: &[b"tfrules-all", b"n"],
        err: b"no modules found\n",
        status: 0,
    },
    // An entry that is no file governs too, and is reported.
    Row {
        entries: &[MemoryEntry {
            name: b"a/b/.tfrules",
            stands: FOLDER,
        }],
        words: &[b"tfrules-all", b"a/b"],
        err: b"tfrules-all: error: a/b/.tfrules: not a file\n1 module not linted: its options aren't known\n",
        status: 1,
    },
    Row {
        entries: &[MemoryEntry {
            name: b"a/b/.tfrules",
            stands: Stands::Link(b"nowhere"),
        }],
        words: &[b"tfrules-all", b"a/b"],
        err: b"tfrules-all: error: a/b/.tfrules: the link leads nowhere\n1 module not linted: its options aren't known\n",
        status: 1,
    },
    Row {
        entries: &[MemoryEntry {
            name: b"a/b/.tfrules",
            stands: Stands::Pipe,
        }],
        words: &[b"tfrules-all", b"a/b"],
        err: b"tfrules-all: error: a/b/.tfrules: not a file\n1 module not linted: its options aren't known\n",
        status: 1,
    },
    // A link to a file is a file.
    Row {
        entries: &[
            MemoryEntry {
                name: b"o",
                stands: Stands::File(b"--force"),
            },
            MemoryEntry {
                name: b"a/b/.tfrules",
                stands: Stands::Link(b"o"),
            },
        ],
        words: &[b"tfrules-all", b"a/b"],
        err: b"2 issues in 1 of 1 module\n",
        status: 0,
    },
    // An entry that isn't text is reported with its place.
    Row {
        entries: &[MemoryEntry {
            name: b"a/b/.tfrules",
            stands: Stands::File(b"--force\n\xff"),
        }],
        words: &[b"tfrules-all", b"a/b"],
        err: b"tfrules-all: error: a/b/.tfrules:2:1: invalid UTF-8\n1 module not linted: its options aren't known\n",
        status: 1,
    },
    Row {
        entries: &[MemoryEntry {
            name: b"a/b/.tfrules",
            stands: Stands::File(b"\xef\xbb\xbf--force"),
        }],
        words: &[b"tfrules-all", b"a/b"],
        err: b"tfrules-all: error: a/b/.tfrules:1:1: byte order mark\n1 module not linted: its options aren't known\n",
        status: 1,
    },
    Row {
        entries: &[MemoryEntry {
            name: b"a/b/.tfrules",
            stands: Stands::File(b"--force\0"),
        }],
        words: &[b"tfrules-all", b"a/b"],
        err: b"tfrules-all: error: a/b/.tfrules:1: no option of a project: \"--force\\000\"\n1 module not linted: its options aren't known\n",
        status: 1,
    },
];

/// Whether a failed call was for finding or reading a `.tfrules`: these use full paths, or ask for them.
fn fails_a_search(calls: &Calls) -> bool {
    match calls.failed_step() {
        Some(Step::FullPath) => true,
        Some(_) => calls.failed_name().starts_with(b"/"),
        None => false,
    }
}

/// Both modules, and the entries beside them.
fn all_of<'a>(
    alloc: Global,
    entries: &[MemoryEntry<'a>],
) -> Result<Vec<MemoryEntry<'a>>, AllocError> {
    let mut all = Vec::new(alloc);
    all.extend_from_slice(&MODULES)?;
    all.extend_from_slice(entries)?;
    Ok(all)
}

/// The output of a run with these words over both modules, and whether such a call failed.
fn run(
    rt: &impl Abort,
    alloc: Global,
    entries: &[MemoryEntry<'_>],
    words: &[&[u8]],
    failures: Failures,
) -> (MemorySink, u8, bool) {
    let entries = all_of(alloc, entries).expect(rt, "memory");
    let tree = MemoryTree::new_in(alloc, HERE, entries.as_slice(), failures).expect(rt, "memory");
    let mut files = ModuleTree::new(tree, Hashing::with_shared_seed());
    let mut input = MemorySource::new(b"", 4096);
    let mut streams = Streams {
        out: MemorySink::new(4096),
        err: MemorySink::new(4096),
    };
    let status = program(alloc, words, PIPES, &mut files, &mut input, &mut streams);
    (streams.err, status, fails_a_search(files.tree.calls()))
}

/// Runs the program with the words of a row over its tree, and compares its output.
fn shows(rt: &impl Abort, alloc: Global, row: &Row) {
    let (err, status, _) = run(rt, alloc, row.entries, row.words, STEADY);
    assert_eq!(rt; err.bytes(), row.err, "of {:?}", row.words);
    assert_eq!(rt; status, row.status, "of {:?}", row.words);
}

#[test]
fn rows_are_shown(rt: HostRuntime) {
    for row in &ROWS {
        shows(&rt, rt.alloc(), row);
    }
}

/// A file of this many bytes is too large.
const MUCH: usize = 5_000_000;

#[test]
fn a_large_file_is_told(rt: HostRuntime) {
    let alloc = rt.alloc();
    let mut text = Vec::new(alloc);
    for _ in 0..MUCH {
        text.push(b'\n').expect(&rt, "memory");
    }
    let entries = [MemoryEntry {
        name: b"a/.tfrules",
        stands: Stands::File(text.as_slice()),
    }];
    let (err, status, _) = run(&rt, alloc, &entries, &[b"tfrules-all", b"a"], STEADY);
    let wanted: &[u8] =
        b"tfrules-all: error: a/.tfrules:1:1: source too large\n2 modules not linted: their options aren't known\n";
    assert_eq!(&rt; err.bytes(), wanted, "of a large file");
    assert_eq!(&rt; status, 1, "of a large file");
}

/// How many calls a run over `a` makes to look for the files of two modules and to read the one that exists.
const CALLS: u64 = 16;

#[test]
fn each_failed_call_is_told(rt: HostRuntime) {
    let mut count: u64 = 0;
    for call in 0..60 {
        let failures = Failures {
            call: Some(call),
            ..STEADY
        };
        let words: [&[u8]; 4] = [b"tfrules-all", b"--quiet", b"--force", b"a"];
        let (err, status, fails) = run(&rt, rt.alloc(), ROWS[1].entries, &words, failures);
        let is_told = status == 1 && !err.bytes().is_empty();
        assert!(&rt; is_told || !fails, "where call {call} fails");
        if fails {
            count = count.saturating_add(1);
        }
    }
    assert_eq!(&rt; count, CALLS, "calls of a run");
}
