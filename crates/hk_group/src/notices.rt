//! What is written on standard error of the nodes of a group, for the person who started the program. A line that can't be written is lost.

use hk_base::NodeId;
use hk_locked::Doubt;
use std::io::Eprint;

/// What letters that came to a node showed.
pub(crate) fn tell_doubt<R: Eprint>(rt: &R, node: NodeId, doubt: Doubt) {
    let _ = match doubt {
        Doubt::Forgot(other) => eprintln!(rt;
            "hermes: node {} has forgotten what it acknowledged, as a process does that is started again: node {} takes nothing from it any more",
            other.0, node.0
        ),
        Doubt::ForgotHere => eprintln!(rt;
            "hermes: node {} has forgotten what it acknowledged, as a process does that is started again: it takes nothing from the others any more. End it",
            node.0
        ),
        Doubt::Stranger(other) => eprintln!(rt;
            "hermes: node {} is no member of the group that node {} is of: were all processes started with the same --nodes?",
            other.0, node.0
        ),
    };
}
