//! The contents of key types' messages.

use std::marker::Model;

/// The known fields of a key message, including its inner messages. What a message doesn't have is
/// 0 or empty.
#[derive(Drop)]
pub(crate) struct Message<'a> {
    /// The greatest version of the message and its inner key messages.
    pub version: u32,
    pub iv_size: u32,
    pub segment: u32,
    pub derived: u32,
    /// The number of the hash function; for a stream, of HKDF's.
    pub hash: u32,
    pub tag_size: u32,
    pub salt: &'a [u8],
    /// The key value; for an AesCtrHmacAeadKey, its AesCtrKey's.
    pub key: &'a [u8],
    /// The number of the hash function of the HMAC beside a cipher.
    pub mac_hash: u32,
    pub mac_tag_size: u32,
    /// The key value of the HMAC beside a cipher.
    pub mac: &'a [u8],
}

impl<'a> Model for Message<'a> {
    ghost use Rattle.key_msgs.specs.Contents.{Contents};

    ghost Value = { Contents };

    ghost view = { λ m. record {
      version = m.version;
      iv_size = m.iv_size;
      segment = m.segment;
      derived = m.derived;
      hash = m.hash;
      tag_size = m.tag_size;
      salt = m.salt.now;
      key = m.key.now;
      mac_hash = m.mac_hash;
      mac_tag_size = m.mac_tag_size;
      mac = m.mac.now;
    } };
}
