// A credential as document 01's 36 bytes.
#![tactic(auto)]

ghost use Rattle.std.specs.Prelude.{◌≡◌};
ghost use Rattle.credential_bytes.specs.Put.{credential_put};

// Writes a credential's bytes at the start of space; where they do not fit, nothing is written.
pub fn put_credential(c: rules::Credential, space: &mut [u8])
    ensures { space.new ≡ credential_put space.old c }
{
    let numbers = [
        u64::from(c.magic),
        u64::from(c.partition),
        u64::from(c.slot),
        u64::from(c.object),
        u64::from(c.version),
        u64::from(c.rights),
        u64::from(c.least),
        u64::from(c.zero),
        u64::from(c.first),
        u64::from(c.end),
        c.expiry,
        u64::from(c.holder),
    ];
    octets::layout::write(space, 0, &fields::CREDENTIAL_WIDTHS, &numbers);
}
