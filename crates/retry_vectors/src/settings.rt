// Calls of the script that set a part of a state, so that it may break its rule.
use crate::script::{Call, clamped};
use retry_rules::{Counters, Receiver, Sender, Slot};

// All zeros, which stand where no sender was made.
pub const NO_SENDER: Sender = Sender {
    counters: Counters {
        oldest: 0,
        stored: 0,
        outstanding: 0,
        point: 0,
        released: 0,
        timer: 0,
        expiries: 0,
        columns: 0,
        size: 0,
        link: 0,
    },
    slots: [Slot {
        length: 0,
        channel: 0,
        bad: false,
    }; 8],
};

// All zeros, which stand where no receiver was made.
pub const NO_RECEIVER: Receiver = Receiver {
    expected: 0,
    received: 0,
    size: 0,
};

fn low_byte(n: u32) -> u8 {
    (n % 256) as u8
}

fn low_two_bytes(n: u32) -> u16 {
    (n % 65536) as u16
}

// One of the counters, or a slot's channel or length. A match on the script's byte and no enum, which would name each field a second time.
pub fn set_sender(call: Call, sender: &mut Sender) {
    let to = call.field(1);
    match call.byte(2) {
        0 => sender.counters.oldest = low_byte(to),
        1 => sender.counters.stored = low_byte(to),
        2 => sender.counters.outstanding = low_byte(to),
        3 => sender.counters.point = low_byte(to),
        4 => sender.counters.released = low_byte(to),
        5 => sender.counters.timer = low_two_bytes(to),
        6 => sender.counters.expiries = low_byte(to),
        7 => sender.counters.columns = low_two_bytes(to),
        8 => sender.counters.size = low_two_bytes(to),
        9 => sender.counters.link = low_byte(to),
        which => {
            if let Some(slot) = sender.slots.get_mut(clamped(call.field(0), 8)) {
                if which == 10 {
                    slot.channel = low_byte(to);
                } else {
                    slot.length = low_two_bytes(to);
                }
            }
        }
    }
}

pub fn set_receiver(call: Call, receiver: &mut Receiver) {
    let to = call.field(1);
    match call.byte(2) {
        0 => receiver.expected = low_byte(to),
        1 => receiver.received = low_byte(to),
        _ => receiver.size = low_two_bytes(to),
    }
}
