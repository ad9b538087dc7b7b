// Calls on a session without watched keys and queued commands.
use crate::{queueing, watching};
use command_names::named::NamedRequest;
use command_spec::request::Request;
use session_memory::{BYTES, IN_MULTI, KEY_SEQUENCES, QUEUED, WATCHED, WORDS};

#[test]
fn queues_get(rt: HostRuntime) {
    let mut words = [0; WORDS];
    words[IN_MULTI] = 1;
    let mut bytes = [0; BYTES];
    let mut out = [0; 16];
    let named = NamedRequest::new(Request {
        input: b"GET k",
        places: &[0, 3, 4, 1],
        count: 2,
    });
    let Ok(answer) = queueing::queue_up(&mut words, &mut bytes, &named, &mut out, 5) else {
        panic!(rt; "refused");
    };
    assert_eq!(rt; answer.used, 5);
    assert_eq!(rt; answer.reply, 9);
    assert_eq!(rt; &out[0..9], b"+QUEUED\r\n".as_slice());
    assert_eq!(rt; words[QUEUED], 1);
}

#[test]
fn watches_a_key(rt: HostRuntime) {
    let mut words = [0; WORDS];
    let mut bytes = [0; BYTES];
    let mut out = [0; 16];
    let named = NamedRequest::new(Request {
        input: b"WATCH k",
        places: &[0, 5, 6, 1],
        count: 2,
    });
    let Ok(answer) = watching::watch_keys(&mut words, &mut bytes, &named, 7, &mut out, 7) else {
        panic!(rt; "refused");
    };
    assert_eq!(rt; answer.used, 7);
    assert_eq!(rt; answer.reply, 5);
    assert_eq!(rt; &out[0..5], b"+OK\r\n".as_slice());
    assert_eq!(rt; words[WATCHED], 1);
    assert_eq!(rt; words[KEY_SEQUENCES], 7);
}
