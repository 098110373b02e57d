//! Which words of the command line choose a run.

use crate::same::same;
use ipx_cmd::{ChooseFault, Run, choose};

#[test]
fn runs_on_standard_input_or_a_file(rt: HostRuntime) {
    let table: [(&[&str], Run, Option<&str>); 12] = [
        (&["replay"], Run::Replay, None),
        (&["replay", "a"], Run::Replay, Some("a")),
        (&["replay", ""], Run::Replay, Some("")),
        (&["replay", "-"], Run::Replay, Some("-")),
        (&["replay", "--", "-a"], Run::Replay, Some("-a")),
        (&["replay", "decode"], Run::Replay, Some("decode")),
        (&["internet"], Run::Internet, None),
        (&["internet", "a"], Run::Internet, Some("a")),
        (&["internet", "--", "-a"], Run::Internet, Some("-a")),
        (&["decode"], Run::Decode, None),
        (&["decode", "a"], Run::Decode, Some("a")),
        (&["decode", "--", "-a"], Run::Decode, Some("-a")),
    ];
    for (words, run, file) in table {
        let chosen = choose(rt.alloc(), words).expect(&rt, "a run");
        same(&rt, chosen.run, run);
        same(&rt, chosen.file.as_ref().map(|name| name.as_str()), file);
    }
}

#[test]
fn refuses_all_other_words(rt: HostRuntime) {
    let table: [&[&str]; 19] = [
        &[],
        &[""],
        &["x"],
        &["show"],
        &["Replay"],
        &["replay", "a", "b"],
        &["replay", "-a"],
        &["replay", "--file", "a"],
        &["--", "replay"],
        &["--help"],
        &["-h"],
        &["replay", "--help"],
        &["-V"],
        &["--version"],
        &["help"],
        &["help", "replay"],
        &["internets"],
        &["internet", "a", "b"],
        &["decode", "a", "b"],
    ];
    for words in table {
        let refused = choose(rt.alloc(), words).err();
        same(&rt, refused, Some(ChooseFault::Usage));
    }
}
