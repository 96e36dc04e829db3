// A request as its bytes: document 01's 28, or the 32 of a group credential's (document 02, change 6).
#![tactic(auto)]

ghost use Rattle.std.specs.Prelude.{◌≡◌};
ghost use Rattle.request_bytes.specs.Put.{request_put};

// Writes a request's bytes, as many as its mark tells, at the start of space; where they do not fit, nothing is written.
pub fn put_request(r: rules::Request, space: &mut [u8])
    ensures { space.new ≡ request_put space.old r }
{
    let numbers = [
        u64::from(r.magic),
        u64::from(r.operation),
        u64::from(r.level),
        r.time,
        u64::from(r.count),
        u64::from(r.A),
        u64::from(r.B),
        u64::from(r.n),
        u64::from(r.member),
    ];
    if r.magic == fields::GROUP_MAGIC {
        octets::layout::write(space, 0, &fields::GROUP_WIDTHS, &numbers);
    } else {
        let plain = &numbers[..fields::REQUEST_WIDTHS.len()];
        octets::layout::write(space, 0, &fields::REQUEST_WIDTHS, plain);
    }
}
