//! What nodes and managers send.

ghost use Rattle.hk_sent.specs.Sent.{NodesSend, ManagersSend, SentIsInRange};

use hk_frame::letters_fit;
use hk_manager::steps_keep_managers;
use hk_node::steps_keep_nodes;

/// Each letter of every step of a node or a manager is as letters are sent: its parts are in range, and a batch keeps its limit. Such a
/// letter fits a frame: it is in range whole.
pub fn steps_send_in_range()
    ensures nodes { NodesSend }
    ensures managers { ManagersSend }
    ensures whole { SentIsInRange }
{
    steps_keep_nodes();
    steps_keep_managers();
    letters_fit();
}
