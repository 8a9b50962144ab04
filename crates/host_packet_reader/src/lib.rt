// What C calls of the packet reader, its state in 15 lent bytes.
#![tactic(auto)]

ghost use Rattle.std.specs.Prelude.{◌≡◌};
ghost use Rattle.host_calls.specs.PacketCalls.{begins, Steps, steps};

// A reader before any character, for segments of S bytes.
#[unsafe(no_mangle)]
pub extern "C" fn buzz_reader_fresh(size: u32, reader: &mut [u8; 15]) -> u32
    ensures { let after = begins size reader.old in (result ≡ after.refusal) × (reader.new ≡ after.lent) }
{
    match packet_reader::fresh(size) {
        Ok(fresh) => {
            *reader = host_reader_bytes::reader_bytes(fresh);
            0
        }
        Err(refusal) => u32::from(refusal),
    }
}

// One character result in, one event out.
#[unsafe(no_mangle)]
pub extern "C" fn buzz_reader_step(
    reader: &mut [u8; 15],
    violation: u32,
    byte: u32,
    control: u32,
    event: &mut u32,
    value: &mut u32,
    number: &mut u32,
) -> u32
    ensures { (let old : Steps = record {
      reader = reader.old;
      event = event.old;
      value = value.old;
      number = number.old;
    } in
        let after = steps violation byte control old in
        (result ≡ after.refusal) × (reader.new ≡ after.lent.reader) × (event.new ≡ after.lent.event)
        × (value.new ≡ after.lent.value) × (number.new ≡ after.lent.number)) }
{
    let said = host_steps::step(reader, violation, byte, control);
    match host_steps::told(said) {
        Ok(told) => {
            *event = told.event;
            *value = told.value;
            *number = told.number;
            0
        }
        Err(refusal) => u32::from(refusal),
    }
}
