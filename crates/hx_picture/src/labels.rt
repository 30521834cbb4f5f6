use crate::runs::Post;
use std::alloc::{AllocError, Global};

/// What kinds of messages have one color.
#[derive(Clone, Copy, PartialEq, Eq)]
pub enum Family {
    Calls,
    Updates,
    Acknowledgements,
    Searches,
    Snapshots,
    Control,
}

impl Family {
    /// All of them, in the order of the legend.
    pub const ALL: [Family; 6] = [
        Family::Calls,
        Family::Updates,
        Family::Acknowledgements,
        Family::Searches,
        Family::Snapshots,
        Family::Control,
    ];

    /// The family of a kind of message.
    pub fn of(kind: &str) -> Family {
        match kind {
            "call" | "reply" => Family::Calls,
            "update" => Family::Updates,
            "ack" => Family::Acknowledgements,
            "ask" | "found" => Family::Searches,
            "snap" | "ready" => Family::Snapshots,
            _ => Family::Control,
        }
    }

    /// Its color.
    pub fn color(self) -> &'static str {
        match self {
            Family::Calls => "#1f5fa8",
            Family::Updates => "#2c7a3f",
            Family::Acknowledgements => "#b3731a",
            Family::Searches => "#7b3fa0",
            Family::Snapshots => "#8a4b2d",
            Family::Control => "#5c6670",
        }
    }

    /// The name of its arrow's head.
    pub fn word(self) -> &'static str {
        match self {
            Family::Calls => "call",
            Family::Updates => "update",
            Family::Acknowledgements => "ack",
            Family::Searches => "search",
            Family::Snapshots => "snapshot",
            Family::Control => "control",
        }
    }

    /// Its name in the legend.
    pub fn name(self) -> &'static str {
        match self {
            Family::Calls => "calls and replies",
            Family::Updates => "updates",
            Family::Acknowledgements => "acknowledgements",
            Family::Searches => "searches",
            Family::Snapshots => "snapshots",
            Family::Control => "configurations",
        }
    }
}

/// The kind of a message with its numbers: `update r0 v1` for version 1 in region 0. An epoch is
/// told where it is what the message is about.
pub fn label_of(alloc: Global, post: &Post) -> Result<String, AllocError> {
    let mut label = String::from_str(alloc, post.kind)?;
    let mut words = post.fields.split_whitespace();
    while let Some(name) = words.next() {
        let Some(number) = words.next() else {
            break;
        };
        if let Some(sign) = sign_of(post.kind, name) {
            label.push(' ')?;
            label.push_str(sign)?;
            label.push_str(number)?;
        }
    }
    Ok(label)
}

/// What stands before a number in a label.
fn sign_of(kind: &str, field: &str) -> Option<&'static str> {
    match field {
        "region" => Some("r"),
        "version" => Some("v"),
        "number" => Some("#"),
        "server" => Some("s"),
        "epoch" if Family::of(kind) == Family::Control => Some("e"),
        _ => None,
    }
}
