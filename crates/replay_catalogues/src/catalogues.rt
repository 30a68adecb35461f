// Kinds 14 to 17: lookup, the reader's steps, a line of the listing, a whole catalogue's check.

pub fn answer_lookup(s: &[u8], out: &mut [u8]) -> usize {
    let rest = wire::from(s, 4);
    let (key, records) = rest.split_at(wire::at_most(octets::unsigned_at(s, 0, 4), rest.len()));
    let number = refusal::number_of(catalogue::find_place(records, key));
    let end = wire::put_number(out, 0, number);
    wire::put_run(out, end, catalogue::find(records, key))
}

// Each step begins where the one before ended, and a space follows it. The last one is left out.
pub fn answer_reader(s: &[u8], out: &mut [u8]) -> usize {
    let n = octets::unsigned_at(s, 0, 4);
    let records = wire::from(s, 4);
    let mut end = 0usize;
    let mut at = 0usize;
    for _ in 0..n {
        let taken = catalogue::take_at(records, at);
        let step = wire::put_step(out, end, taken.found);
        end = text::put_bytes(out, step, b" ");
        at = taken.next;
    }
    end.saturating_sub(1)
}

// The line, without the line feed that ends it.
pub fn answer_line(s: &[u8], out: &mut [u8]) -> usize {
    listing::line(s, out).saturating_sub(1)
}

pub fn answer_check(s: &[u8], out: &mut [u8]) -> usize {
    wire::put_count(out, 0, catalogue::check(s))
}
