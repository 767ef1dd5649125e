//! Well-formed and malformed lines.
use keys::byte_key::ByteKey;
use keys::stop_key::StopKey;
use scripts::command::{Command, Line};
use std::alloc::Global;
use texts::fault::Fault;
use texts::key_text::KeyText;

// What comes of a line under keys of a kind.
#[derive(Clone, Copy, Debug, PartialEq, Eq)]
enum Outcome {
    Blank,
    Command,
    Malformed,
    Refused,
}

fn read<K: KeyText + Drop>(heap: Global, text: &str) -> Outcome {
    match Line::read(text) {
        Ok(Line::Call(word, mut words)) => {
            let command: Result<Command<K>, Fault> = Command::read(heap, word, &mut words);
            match command {
                Ok(_) => Outcome::Command,
                Err(Fault::Refused(_)) => Outcome::Refused,
                Err(_) => Outcome::Malformed,
            }
        }
        Ok(_) => Outcome::Blank,
        Err(_) => Outcome::Malformed,
    }
}

#[test]
fn well_formed(rt: HostRuntime) {
    let heap = rt.alloc();
    assert_eq!(rt;
        read::<StopKey>(
            heap,
            "table 1 6 65535 0:0 4294967295:4294967295 18446744073709551615 0 0 # all",
        ),
        Outcome::Command
    );
    assert_eq!(rt;
        read::<StopKey>(heap, "propose 5 leveled 100 256 10.0 0x7fc00000 0x41200000"),
        Outcome::Command
    );
    assert_eq!(rt;
        read::<StopKey>(heap, "book 5 fifo 100 0"),
        Outcome::Command
    );
    assert_eq!(rt;
        read::<ByteKey>(heap, "look-ahead 5 drop-range [00Ff (-"),
        Outcome::Command
    );
    assert_eq!(rt;
        read::<ByteKey>(heap, "output 7 - ff 1 2 3"),
        Outcome::Command
    );
}

#[test]
fn malformed_lines(rt: HostRuntime) {
    let heap = rt.alloc();
    assert_eq!(rt; read::<StopKey>(heap, "tables 1"), Outcome::Malformed);
    assert_eq!(rt; read::<StopKey>(heap, "open"), Outcome::Malformed);
    assert_eq!(rt; read::<StopKey>(heap, "open 1 2"), Outcome::Malformed);
    assert_eq!(rt; read::<StopKey>(heap, "open +1"), Outcome::Malformed);
    assert_eq!(rt;
        read::<StopKey>(heap, "open 18446744073709551616"),
        Outcome::Malformed
    );
    assert_eq!(rt;
        read::<StopKey>(heap, "land 1 0:1 0 3 4 5"),
        Outcome::Malformed
    );
    assert_eq!(rt;
        read::<StopKey>(heap, "propose 1 drop-range 0:1 *"),
        Outcome::Malformed
    );
    assert_eq!(rt;
        read::<ByteKey>(heap, "land 1 abc ff 3 4 5"),
        Outcome::Malformed
    );
}

#[test]
fn a_long_key_is_refused(rt: HostRuntime) {
    let heap = rt.alloc();
    let line = "land 1 - 000102030405060708090a0b0c0d0e0f101112131415161718191a1b1c1d1e1f20 3 4 5";
    assert_eq!(rt; read::<ByteKey>(heap, line), Outcome::Refused);
}
