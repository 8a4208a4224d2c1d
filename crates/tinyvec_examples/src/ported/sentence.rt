//! A sentence of a receiver of satellite positions, as `$GPGGA,123519,4807.038,N*47`.
use tinyvec_array::ArrayVec;

/// The fields of a sentence, or `None` if it does not begin with `$`, has no `*`, or more than 20 fields.
pub fn fields(sentence: &str) -> Option<ArrayVec<[&str; 20]>> {
    let body = sentence.strip_prefix('$')?;
    let (body, _checksum) = body.split_once('*')?;
    ArrayVec::from_iter(body.split(',')).ok()
}

/// The time of day, if the sentence is of a fix.
pub fn time_of_fix<'t>(fields: &ArrayVec<[&'t str; 20]>) -> Option<&'t str> {
    match fields.as_slice() {
        ["GPGGA", time, ..] => Some(*time),
        _ => None,
    }
}
