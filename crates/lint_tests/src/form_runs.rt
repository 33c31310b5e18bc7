//! Whole runs of the program in each form. The documents were worked out by Python's `json`, `hashlib` and `xml`.

use crate::programs::{ENTRIES, Row, shows};
use std::alloc::{AllocError, Global};
use tree_devices::entry::{MemoryEntry, Stands};

/// A module that doesn't parse, and one whose options aren't known, beside the modules of the other runs.
static MORE: [MemoryEntry<'static>; 5] = [
    MemoryEntry {
        name: b"worse",
        stands: Stands::Folder,
    },
    MemoryEntry {
        name: b"worse/main.tf",
        stands: Stands::File(b"x = \n"),
    },
    MemoryEntry {
        name: b"set",
        stands: Stands::Folder,
    },
    MemoryEntry {
        name: b"set/main.tf",
        stands: Stands::File(b"variable \"s\" {}\n"),
    },
    MemoryEntry {
        name: b"set/.tfrules",
        stands: Stands::File(b"--force\n--rules typed\n"),
    },
];

/// Everything that can't be linted, as reported on standard error.
const REFUSED: &[u8] =
    b"tfrules-all: error: worse/main.tf:1:5: unexpected token\ntfrules-all: error: bad/lost.tf: the link leads nowhere\ntfrules-all: error: bad/pipe.tf: not a file\ntfrules-all: error: odd/\xff.tf: the name isn't UTF-8\ntfrules-all: error: set/.tfrules:2: unknown rule \"typed\"\n";

const JSON: &[u8] =
    b"{\"issues\":[{\"rule\":{\"name\":\"terraform_typed_variables\",\"severity\":\"warning\",\"link\":\"\"},\"message\":\"variable \\\"x\\\" has no type\",\"range\":{\"filename\":\"a/main.tf\",\"start\":{\"line\":1,\"column\":1},\"end\":{\"line\":1,\"column\":1}},\"callers\":[]},{\"rule\":{\"name\":\"terraform_typed_variables\",\"severity\":\"warning\",\"link\":\"\"},\"message\":\"variable \\\"z\\\" has no type\",\"range\":{\"filename\":\"a/sub/b.tofu\",\"start\":{\"line\":1,\"column\":1},\"end\":{\"line\":1,\"column\":1}},\"callers\":[]},{\"rule\":{\"name\":\"terraform_unused_declarations\",\"severity\":\"warning\",\"link\":\"\"},\"message\":\"variable \\\"z\\\" is declared but not used\",\"range\":{\"filename\":\"a/sub/b.tofu\",\"start\":{\"line\":1,\"column\":1},\"end\":{\"line\":1,\"column\":1}},\"callers\":[]}],\"errors\":[{\"message\":\"unexpected token\",\"severity\":\"error\",\"range\":{\"filename\":\"worse/main.tf\",\"start\":{\"line\":1,\"column\":5},\"end\":{\"line\":1,\"column\":5}}},{\"message\":\"the link leads nowhere\",\"severity\":\"error\",\"range\":{\"filename\":\"bad/lost.tf\",\"start\":{\"line\":1,\"column\":1},\"end\":{\"line\":1,\"column\":1}}},{\"message\":\"not a file\",\"severity\":\"error\",\"range\":{\"filename\":\"bad/pipe.tf\",\"start\":{\"line\":1,\"column\":1},\"end\":{\"line\":1,\"column\":1}}},{\"message\":\"the name isn't UTF-8\",\"severity\":\"error\",\"range\":{\"filename\":\"odd/\xef\xbf\xbd.tf\",\"start\":{\"line\":1,\"column\":1},\"end\":{\"line\":1,\"column\":1}}},{\"message\":\"unknown rule \\\"typed\\\"\",\"severity\":\"error\",\"range\":{\"filename\":\"set/.tfrules\",\"start\":{\"line\":2,\"column\":1},\"end\":{\"line\":2,\"column\":1}}}]}";

const GITHUB: &[u8] =
    b"::warning file=a/main.tf,line=1,col=1,title=terraform_typed_variables::variable \"x\" has no type\n::warning file=a/sub/b.tofu,line=1,col=1,title=terraform_typed_variables::variable \"z\" has no type\n::warning file=a/sub/b.tofu,line=1,col=1,title=terraform_unused_declarations::variable \"z\" is declared but not used\n::error file=worse/main.tf,line=1,col=5,title=refused_file::unexpected token\n::error file=bad/lost.tf,line=1,col=1,title=refused_file::the link leads nowhere\n::error file=bad/pipe.tf,line=1,col=1,title=refused_file::not a file\n::error file=odd/\xef\xbf\xbd.tf,line=1,col=1,title=refused_file::the name isn't UTF-8\n::error file=set/.tfrules,line=2,col=1,title=refused_file::unknown rule \"typed\"\n";

const CHECKSTYLE: &[u8] =
    b"<?xml version=\"1.0\" encoding=\"UTF-8\"?>\n<checkstyle version=\"4.3\">\n<file name=\"a/main.tf\"><error line=\"1\" column=\"1\" severity=\"warning\" message=\"variable &quot;x&quot; has no type\" source=\"terraform_typed_variables\"/></file>\n<file name=\"a/sub/b.tofu\"><error line=\"1\" column=\"1\" severity=\"warning\" message=\"variable &quot;z&quot; has no type\" source=\"terraform_typed_variables\"/></file>\n<file name=\"a/sub/b.tofu\"><error line=\"1\" column=\"1\" severity=\"warning\" message=\"variable &quot;z&quot; is declared but not used\" source=\"terraform_unused_declarations\"/></file>\n<file name=\"worse/main.tf\"><error line=\"1\" column=\"5\" severity=\"error\" message=\"unexpected token\" source=\"refused_file\"/></file>\n<file name=\"bad/lost.tf\"><error line=\"1\" column=\"1\" severity=\"error\" message=\"the link leads nowhere\" source=\"refused_file\"/></file>\n<file name=\"bad/pipe.tf\"><error line=\"1\" column=\"1\" severity=\"error\" message=\"not a file\" source=\"refused_file\"/></file>\n<file name=\"odd/\xef\xbf\xbd.tf\"><error line=\"1\" column=\"1\" severity=\"error\" message=\"the name isn't UTF-8\" source=\"refused_file\"/></file>\n<file name=\"set/.tfrules\"><error line=\"2\" column=\"1\" severity=\"error\" message=\"unknown rule &quot;typed&quot;\" source=\"refused_file\"/></file>\n</checkstyle>\n";

const JUNIT: &[u8] =
    b"<?xml version=\"1.0\" encoding=\"UTF-8\"?>\n<testsuites>\n<testsuite name=\"tfrules\" tests=\"1\" failures=\"1\" errors=\"0\">\n<testcase classname=\"terraform_typed_variables\" name=\"a/main.tf:1:1\"><failure type=\"Warning\" message=\"a/main.tf:1:1: variable &quot;x&quot; has no type\"/></testcase>\n</testsuite>\n<testsuite name=\"tfrules\" tests=\"2\" failures=\"2\" errors=\"0\">\n<testcase classname=\"terraform_typed_variables\" name=\"a/sub/b.tofu:1:1\"><failure type=\"Warning\" message=\"a/sub/b.tofu:1:1: variable &quot;z&quot; has no type\"/></testcase>\n<testcase classname=\"terraform_unused_declarations\" name=\"a/sub/b.tofu:1:1\"><failure type=\"Warning\" message=\"a/sub/b.tofu:1:1: variable &quot;z&quot; is declared but not used\"/></testcase>\n</testsuite>\n<testsuite name=\"tfrules\" tests=\"5\" failures=\"0\" errors=\"5\">\n<testcase classname=\"refused_file\" name=\"worse/main.tf:1:5\"><error type=\"Error\" message=\"worse/main.tf:1:5: unexpected token\"/></testcase>\n<testcase classname=\"refused_file\" name=\"bad/lost.tf:1:1\"><error type=\"Error\" message=\"bad/lost.tf:1:1: the link leads nowhere\"/></testcase>\n<testcase classname=\"refused_file\" name=\"bad/pipe.tf:1:1\"><error type=\"Error\" message=\"bad/pipe.tf:1:1: not a file\"/></testcase>\n<testcase classname=\"refused_file\" name=\"odd/\xef\xbf\xbd.tf:1:1\"><error type=\"Error\" message=\"odd/\xef\xbf\xbd.tf:1:1: the name isn't UTF-8\"/></testcase>\n<testcase classname=\"refused_file\" name=\"set/.tfrules:2:1\"><error type=\"Error\" message=\"set/.tfrules:2:1: unknown rule &quot;typed&quot;\"/></testcase>\n</testsuite>\n</testsuites>\n";

const GITLAB: &[u8] =
    b"[{\"description\":\"variable \\\"x\\\" has no type\",\"check_name\":\"terraform_typed_variables\",\"fingerprint\":\"3d02e69cc26431b3e31d6b1d6db9b7405785e526efa9e5369962ed153dea718e:1\",\"severity\":\"minor\",\"location\":{\"path\":\"a/main.tf\",\"lines\":{\"begin\":1}}},{\"description\":\"variable \\\"z\\\" has no type\",\"check_name\":\"terraform_typed_variables\",\"fingerprint\":\"ecb040815b389d0091961b62caa9bdcc3f6211fc849022e14c32068694515018:1\",\"severity\":\"minor\",\"location\":{\"path\":\"a/sub/b.tofu\",\"lines\":{\"begin\":1}}},{\"description\":\"variable \\\"z\\\" is declared but not used\",\"check_name\":\"terraform_unused_declarations\",\"fingerprint\":\"138f9d4f4d9f08b890e7143369b9f857d647a8aaa2012e646cad70d1f878ecff:1\",\"severity\":\"minor\",\"location\":{\"path\":\"a/sub/b.tofu\",\"lines\":{\"begin\":1}}},{\"description\":\"unexpected token\",\"check_name\":\"refused_file\",\"fingerprint\":\"bfd31128dd9f6b289f03fc3202e09c4d50fbdab9f0875d1a624111d5e1e84d78:1\",\"severity\":\"major\",\"location\":{\"path\":\"worse/main.tf\",\"lines\":{\"begin\":1}}},{\"description\":\"the link leads nowhere\",\"check_name\":\"refused_file\",\"fingerprint\":\"52e7d61b410dd78584d3d1cb358946ec46f3fa8dbd26df3877e769e6c2a7f370:1\",\"severity\":\"major\",\"location\":{\"path\":\"bad/lost.tf\",\"lines\":{\"begin\":1}}},{\"description\":\"not a file\",\"check_name\":\"refused_file\",\"fingerprint\":\"34a7d9ecda5953ece560268d72af65306cc246834c534c517766d1c3e65dcd11:1\",\"severity\":\"major\",\"location\":{\"path\":\"bad/pipe.tf\",\"lines\":{\"begin\":1}}},{\"description\":\"the name isn't UTF-8\",\"check_name\":\"refused_file\",\"fingerprint\":\"067073135167420d301eb9f9abcbc99d92a55c0484835b85d96d0b77776de591:1\",\"severity\":\"major\",\"location\":{\"path\":\"odd/\xef\xbf\xbd.tf\",\"lines\":{\"begin\":1}}},{\"description\":\"unknown rule \\\"typed\\\"\",\"check_name\":\"refused_file\",\"fingerprint\":\"011dce29126d17e6adae515001474854a2d77ee11f9739d75f6ee6d537cb1840:1\",\"severity\":\"major\",\"location\":{\"path\":\"set/.tfrules\",\"lines\":{\"begin\":2}}}]";

static ROWS: [Row; 8] = [
    Row {
        words: &[b"tfrules-all", b"--quiet", b"--format", b"json"],
        input: b"",
        out: JSON,
        err: REFUSED,
        status: 1,
    },
    Row {
        words: &[b"tfrules-all", b"--quiet", b"--format", b"github"],
        input: b"",
        out: GITHUB,
        err: REFUSED,
        status: 1,
    },
    Row {
        words: &[b"tfrules-all", b"--quiet", b"--format", b"checkstyle"],
        input: b"",
        out: CHECKSTYLE,
        err: REFUSED,
        status: 1,
    },
    Row {
        words: &[b"tfrules-all", b"--quiet", b"--format", b"junit"],
        input: b"",
        out: JUNIT,
        err: REFUSED,
        status: 1,
    },
    Row {
        words: &[b"tfrules-all", b"--quiet", b"--format", b"gitlab"],
        input: b"",
        out: GITLAB,
        err: REFUSED,
        status: 1,
    },
    // Without remarks on any file.
    Row {
        words: &[b"tfrules-all", b"--format=json", b"other"],
        input: b"",
        out: b"{\"issues\":[],\"errors\":[]}",
        err: b"no modules found\n",
        status: 0,
    },
    Row {
        words: &[b"tfrules-all", b"--format=junit", b"other"],
        input: b"",
        out: b"<?xml version=\"1.0\" encoding=\"UTF-8\"?>\n<testsuites>\n<testsuite name=\"tfrules\" tests=\"1\" failures=\"0\" errors=\"0\">\n<testcase classname=\"tfrules\" name=\"no issue\"/>\n</testsuite>\n</testsuites>\n",
        err: b"no modules found\n",
        status: 0,
    },
    // A part has its own document.
    Row {
        words: &[b"tfrules-all", b"--format=github", b"--shard", b"1/2", b"a"],
        input: b"",
        out: b"::warning file=a/main.tf,line=1,col=1,title=terraform_typed_variables::variable \"x\" has no type\n",
        err: b"1 issue in 1 of 1 module\n",
        status: 2,
    },
];

fn all_entries(alloc: Global) -> Result<Vec<MemoryEntry<'static>>, AllocError> {
    let mut entries = Vec::from_slice(alloc, ENTRIES)?;
    entries.extend_from_slice(&MORE)?;
    Ok(entries)
}

#[test]
fn forms_are_shown(rt: HostRuntime) {
    let entries = all_entries(rt.alloc()).expect(&rt, "memory");
    for row in &ROWS {
        shows(&rt, rt.alloc(), entries.as_slice(), row);
    }
}
