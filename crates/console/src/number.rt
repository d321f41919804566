use crate::reason::Reason;

// A decimal number, with no sign.
pub fn decimal(word: &str) -> Result<u64, Reason> {
    // `parse` would take a plus
    if word.starts_with('+') {
        return Err(Reason::NoNumber);
    }
    Ok(word.parse::<u64>()?)
}

// A decimal number with a minus before it, or without.
pub fn signed(word: &str) -> Result<i32, Reason> {
    // by its digits: `parse::<i32>` would call a long word out of range before it finds a wrong digit
    match word.strip_prefix('-') {
        Some(digits) => {
            let amount = i64::try_from(decimal(digits)?)?;
            Ok(i32::try_from(amount.wrapping_neg())?)
        }
        None => Ok(i32::try_from(decimal(word)?)?),
    }
}

// Sixteen such numbers, with a comma between each two.
pub fn sixteen(word: &str) -> Result<[i32; 16], Reason> {
    let mut words = word.split(',');
    let mut numbers = [0; 16];
    for number in &mut numbers {
        *number = signed(words.next().ok_or(Reason::NoShifts)?)?;
    }
    words.next().map_or(Ok(numbers), |_| Err(Reason::NoShifts))
}
