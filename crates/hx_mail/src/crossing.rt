//! What threads share or hand on: that each type may is proved here.
use crate::envelopes::{Envelope, Letter};
use crate::mailboxes::Mailbox;
use crate::ports::Port;

fn may_share<T: Sync>(_: &T) {}

fn may_hand_on<T: Send>(_: &T) {}

fn share_box(mailbox: &Mailbox) {
    may_share(mailbox);
}

fn hand_on_envelope(envelope: &Envelope) {
    may_hand_on(envelope);
}

fn hand_on_letter(letter: &Letter) {
    may_hand_on(letter);
}

fn hand_on_port(port: &Port) {
    may_hand_on(port);
}
