//! What the types of values hold at their limits, and that a copy is the same.
ghost use Rattle.std.specs.Prelude.{◌≡◌, ◌+◌, ◌≤◌, length, vec_len, IfOk};

use ci_base::*;
use itoa::Buffer;
use std::alloc::{AllocError, Global};
use std::test::Fail;

/// A list of `count` bytes that are all `x`.
fn xs(alloc: Global, count: usize) -> Result<Vec<u8>, AllocError>
    ensures { IfOk result (λ bytes. vec_len bytes ≡ count) }
{
    vec![in alloc; b'x'; count]
}

#[test]
fn texts_end_at_255_bytes(rt: HostRuntime) -> Result<(), Fail> {
    let most = xs(rt.alloc(), 255)?;
    let long = xs(rt.alloc(), 256)?;
    assert_eq!(rt; Text::of(long.as_slice()), None);
    let text = Text::of(most.as_slice()).ok_or("255 bytes")?;
    assert_eq!(rt; text.bytes(), most.as_slice());
    assert_eq!(rt; text.copy(), text);
    let one = Text::of(b"y").ok_or("one byte")?;
    assert_eq!(rt; text.try_join(&one), None);
    assert_eq!(rt; one.try_join(&Text::empty()), Some(one.copy()));
    let two = one.try_join(&one).ok_or("two bytes")?;
    assert_eq!(rt; two.bytes(), b"yy".as_slice());
    Ok(())
}

#[test]
fn byte_strings_are_copied_and_grow(rt: HostRuntime) -> Result<(), Fail> {
    let mut bytes = Bytes::empty(rt.alloc());
    assert!(rt; bytes.append(b"ab").is_ok());
    assert!(rt; bytes.append(b"").is_ok());
    assert!(rt; bytes.append(b"c").is_ok());
    let Ok(same) = Bytes::copy(rt.alloc(), b"abc") else {
        return Err(Fail::from("no memory"));
    };
    assert_eq!(rt; bytes, same);
    Ok(())
}

/// Puts a number, of which no one is longer than 40 bytes.
fn put(n: i64, to: &mut Line)
    requires { length to.old + 40 ≤ 4096 }
    ensures { length to.new ≤ length to.old + 40 }
{
    let mut buffer = Buffer::new();
    let _text = buffer.format(n);
    put_number(n, to);
}

#[test]
fn numbers_are_put_in_decimal(rt: HostRuntime) -> Result<(), Fail> {
    let mut line = Line::empty();
    put(i64::MIN, &mut line);
    line.add(b" ");
    put(i64::MAX, &mut line);
    line.add(b" ");
    put(0, &mut line);
    line.add(b" ");
    put_u32(u32::MAX, &mut line);
    line.add(b" ");
    put_u64(u64::MAX, &mut line);
    assert_eq!(rt;
        line.bytes(),
        b"-9223372036854775808 9223372036854775807 0 4294967295 18446744073709551615".as_slice()
    );
    let mut full = Line::empty();
    let text = xs(rt.alloc(), 4096)?;
    full.add(text.as_slice());
    assert_eq!(rt; full.copy().bytes().len(), 4096);
    Ok(())
}

/// An answer with an element.
fn answer() -> Answer {
    Answer {
        value: Value::Int(-1),
        code: 3,
        extra: Extra::Element {
            sort: 7,
            text: Text::empty(),
        },
    }
}

#[test]
fn woken_holds_64_deliveries(rt: HostRuntime) {
    let mut woken = Woken::empty();
    for task in 1..65 {
        if woken.deliveries().len() < 64 {
            woken.add(Delivery {
                task,
                answer: answer(),
            });
        }
    }
    assert_eq!(rt; woken.deliveries().len(), 64);
    assert!(rt; woken.copy().is_same(&woken));
    assert!(rt; !Woken::empty().is_same(&woken));
}

#[test]
fn copies_are_the_same(rt: HostRuntime) {
    let mut args = Args::empty();
    args.add(Value::Int(5));
    args.add(Value::Str(Text::empty()));
    assert_eq!(rt; args.values().len(), 2);
    let birth = Birth {
        task: 1,
        function: 0,
        args,
    };
    assert!(rt; birth.copy().is_same(&birth));
    assert!(rt; !birth.args.is_same(&Args::default()));
    let event = Event {
        soon: true,
        what: EventKind::Set {
            name: Text::empty(),
            value: Value::default(),
        },
    };
    let reply = EventReply { value: 0, code: 10 };
    let script = Entry::Script { event, reply };
    assert!(rt; script.copy().is_same(&script));
    let request = Request::QueRead { number: 1, mode: 1 };
    assert!(rt; !request.is_same(&Request::QueRead { number: 1, mode: 0 }));
    let ask = Entry::Ask {
        task: 1,
        ticks: 2,
        request,
        reply: Reply::Answer(answer()),
    };
    assert!(rt; ask.copy().is_same(&ask));
    assert!(rt; !ask.is_same(&script));
    assert_eq!(rt; Reply::Waits.copy(), Reply::Waits);
    assert_eq!(rt; Place::Clock.copy(), Place::Clock);
    assert_eq!(rt; Delivery::default().copy(), Delivery::default());
}

#[test]
fn small_values_are_copied(rt: HostRuntime) {
    let limits = Limits {
        slice: 1000,
        budget: 10_000_000,
        workers: 0,
    };
    assert_eq!(rt; limits.copy(), limits);
    assert_eq!(rt; Kind::Str.copy(), Kind::Str);
    assert_eq!(rt; PrivateName::Abs.copy(), PrivateName::Abs);
    assert_eq!(rt; SharedName::End.copy(), SharedName::End);
    assert_eq!(rt; OutOfMemory.copy(), OutOfMemory);
    assert_eq!(rt; Ending::Spent.copy(), Ending::Spent);
    assert_eq!(rt; Turn::Went.copy(), Turn::Went);
    assert_eq!(rt; Status::Ended(12).copy(), Status::Ended(12));
    let loose = Loose {
        task: 1,
        ticks: 800,
    };
    assert_eq!(rt; loose.copy(), loose);
    let grant = Grant {
        task: 2,
        before: 3,
        ticks: 1000,
    };
    assert_eq!(rt; grant.copy(), grant);
    let none = LooseList::empty(rt.alloc());
    assert!(rt; none.members().is_empty() && none.is_same(&LooseList::empty(rt.alloc())));
    assert_eq!(rt; EventReply { value: 0, code: 0 }.copy().code, 0);
}
