//! What goes through a link.

ghost use Rattle.hk_link.specs.Parcels.{IsParcel, IsParcel-prop};

use hk_base::Letter;

/// A letter on its way to a shard of its addressee. The shard is below 8 and the letter is in range, so whoever takes a parcel may apply it.
#[derive(Drop)]
pub struct Parcel {
    pub shard: u8,
    pub letter: Letter,
    pub ghost ranged: { IsParcel shard letter } by { IsParcel-prop shard letter },
}

/// The link has no room for this parcel.
#[derive(Drop)]
pub struct Full(pub Parcel);
