//! The templates from which new keys are made.

ghost use Rattle.std.specs.Prelude.{◌≡◌, ◌≢◌, ◌<◌, ◌≤◌, ℕ, [], length, map, Some, option_map, slice_get, IfOk, Contains};
ghost use Rattle.key_msgs.specs.KeyTypes.{primitive_of_type, url_of_type};
ghost use Rattle.key_msgs.specs.Keys.{type_of};
ghost use Rattle.key_msgs.specs.declared.template.Recipe.TheVariants.{CtrHmac};
ghost use Rattle.key_msgs.specs.Templates.{templates, seen, seen_row, type_made, random_of, made, made_by, FindsTemplate, is_asymmetric};

use crate::{KeyKind, KeyType, Primitive};
use std::alloc::Global;
use std::marker::Model;
use tink_base::{Bytes, Hash, NoMemory, RAW, TINK};

/// What a template makes. Sizes are in bytes; what isn't listed is fixed.
#[derive(Clone, Copy)]
pub enum Recipe {
    /// An AesGcmKey of this size.
    Gcm(u32),
    /// An AesEaxKey of this size, with IVs of 16.
    Eax(u32),
    /// An AesCtrHmacAeadKey with an AES key of the first size and tags of the second, IVs of 16 and
    /// an HMAC key of 32 for SHA-256.
    CtrHmac(u32, u32),
    /// An AesSivKey of 64.
    Siv,
    /// An HmacKey of this size for this hash function, with tags of this size.
    Hmac(u32, Hash, u32),
    /// An AesCmacKey of 32, with tags of 16.
    Cmac,
    /// An HkdfPrfKey of 32 for SHA-256, with no salt.
    HkdfPrf,
    /// An HmacPrfKey of this size for this hash function.
    HmacPrf(u32, Hash),
    /// An AesCmacPrfKey of 32.
    CmacPrf,
    /// An AesGcmHkdfStreamingKey of the first size, as are derived keys, for SHA-256 and segments
    /// of the second size.
    GcmStream(u32, u32),
    /// An AesCtrHmacStreamingKey likewise, with tags of 32 for SHA-256.
    CtrStream(u32, u32),
    /// An AesGcmSivKey of this size.
    GcmSiv(u32),
}

/// A template's name, the output prefix type of its keys, and what is made.
#[derive(Clone, Copy)]
struct TemplateRow {
    name: &'static str,
    prefix: u32,
    recipe: Recipe,
}

/// A row of the table.
macro_rules! row {
    ($name:literal, $prefix:expr, $recipe:expr) => {
        TemplateRow {
            name: $name,
            prefix: $prefix,
            recipe: $recipe,
        }
    };
}

/// The templates, in the order in which they are listed.
const TEMPLATES: [TemplateRow; 36] = [
    row!("AES128_GCM", TINK, Recipe::Gcm(16)),
    row!("AES128_GCM_RAW", RAW, Recipe::Gcm(16)),
    row!("AES256_GCM", TINK, Recipe::Gcm(32)),
    row!("AES256_GCM_RAW", RAW, Recipe::Gcm(32)),
    row!("AES128_EAX", TINK, Recipe::Eax(16)),
    row!("AES128_EAX_RAW", RAW, Recipe::Eax(16)),
    row!("AES256_EAX", TINK, Recipe::Eax(32)),
    row!("AES256_EAX_RAW", RAW, Recipe::Eax(32)),
    row!("AES128_CTR_HMAC_SHA256", TINK, Recipe::CtrHmac(16, 16)),
    row!("AES128_CTR_HMAC_SHA256_RAW", RAW, Recipe::CtrHmac(16, 16)),
    row!("AES256_CTR_HMAC_SHA256", TINK, Recipe::CtrHmac(32, 32)),
    row!("AES256_CTR_HMAC_SHA256_RAW", RAW, Recipe::CtrHmac(32, 32)),
    row!("AES256_SIV", TINK, Recipe::Siv),
    row!("AES256_SIV_RAW", RAW, Recipe::Siv),
    row!(
        "HMAC_SHA256_128BITTAG",
        TINK,
        Recipe::Hmac(32, Hash::Sha256, 16)
    ),
    row!(
        "HMAC_SHA256_256BITTAG",
        TINK,
        Recipe::Hmac(32, Hash::Sha256, 32)
    ),
    row!(
        "HMAC_SHA512_128BITTAG",
        TINK,
        Recipe::Hmac(64, Hash::Sha512, 16)
    ),
    row!(
        "HMAC_SHA512_256BITTAG",
        TINK,
        Recipe::Hmac(64, Hash::Sha512, 32)
    ),
    row!(
        "HMAC_SHA512_512BITTAG",
        TINK,
        Recipe::Hmac(64, Hash::Sha512, 64)
    ),
    row!("AES256_CMAC", TINK, Recipe::Cmac),
    row!("HKDF_SHA256", RAW, Recipe::HkdfPrf),
    row!("HMAC_SHA256_PRF", RAW, Recipe::HmacPrf(32, Hash::Sha256)),
    row!("HMAC_SHA512_PRF", RAW, Recipe::HmacPrf(64, Hash::Sha512)),
    row!("AES_CMAC_PRF", RAW, Recipe::CmacPrf),
    row!("AES128_GCM_HKDF_4KB", RAW, Recipe::GcmStream(16, 4096)),
    row!("AES128_GCM_HKDF_1MB", RAW, Recipe::GcmStream(16, 1_048_576)),
    row!("AES256_GCM_HKDF_4KB", RAW, Recipe::GcmStream(32, 4096)),
    row!("AES256_GCM_HKDF_1MB", RAW, Recipe::GcmStream(32, 1_048_576)),
    row!(
        "AES128_CTR_HMAC_SHA256_4KB",
        RAW,
        Recipe::CtrStream(16, 4096)
    ),
    row!(
        "AES128_CTR_HMAC_SHA256_1MB",
        RAW,
        Recipe::CtrStream(16, 1_048_576)
    ),
    row!(
        "AES256_CTR_HMAC_SHA256_4KB",
        RAW,
        Recipe::CtrStream(32, 4096)
    ),
    row!(
        "AES256_CTR_HMAC_SHA256_1MB",
        RAW,
        Recipe::CtrStream(32, 1_048_576)
    ),
    row!("AES128_GCM_SIV", TINK, Recipe::GcmSiv(16)),
    row!("AES128_GCM_SIV_RAW", RAW, Recipe::GcmSiv(16)),
    row!("AES256_GCM_SIV", TINK, Recipe::GcmSiv(32)),
    row!("AES256_GCM_SIV_RAW", RAW, Recipe::GcmSiv(32)),
];

/// How many templates there are.
pub const TEMPLATE_COUNT: usize = TEMPLATES.len();

/// A template: a row of the table. Contracts see its place, counted from 0.
#[derive(Clone, Copy)]
pub struct Template {
    row: usize,
}

impl Model for Template {
    ghost use Rattle.std.specs.Prelude.{ℕ, ◌<◌};
    ghost use Rattle.key_msgs.specs.declared.template.TheConstants.{TEMPLATE_COUNT};

    ghost Value = { ℕ };

    ghost view = { λ t. t.row };

    ghost invariant = { λ t. t.row < TEMPLATE_COUNT };

    ghost inverse = { λ place. record { row = place } };
}

impl Template {
    /// The row of the template.
    fn row(&self) -> TemplateRow
        ensures row { seen_row result ≡ seen self.now }
        ensures known { Contains templates (seen self.now) }
    {
        row_at(&TEMPLATES, self.row)
    }

    /// The name of the template.
    pub fn name(&self) -> &'static str
        ensures { result.now ≡ (seen self.now).name }
    {
        self.row().name
    }

    /// The output prefix type of the keys that it makes, `TINK` or `RAW`.
    pub fn prefix(&self) -> u32
        ensures { result ≡ (seen self.now).prefix }
    {
        self.row().prefix
    }

    /// The type of the keys that it makes.
    fn key_type(&self) -> KeyType
        ensures { result ≡ type_made (seen self.now) }
    {
        type_by(self.row().recipe)
    }

    /// The primitive of the keys that it makes.
    pub fn primitive(&self) -> Primitive
        ensures { result ≡ primitive_of_type (type_made (seen self.now)) }
    {
        self.key_type().primitive()
    }

    /// How many random bytes a key takes.
    ///
    /// A template is a row of the table.
    pub fn random_len(&self) -> usize
        ensures size { result ≡ random_of (seen self.now) }
        ensures known { Contains templates (seen self.now) }
    {
        match self.row().recipe {
            Recipe::Gcm(size)
            | Recipe::Eax(size)
            | Recipe::Hmac(size, _, _)
            | Recipe::HmacPrf(size, _)
            | Recipe::GcmStream(size, _)
            | Recipe::CtrStream(size, _)
            | Recipe::GcmSiv(size) => size as usize,
            Recipe::CtrHmac(size, _) => size as usize + 32,
            Recipe::Siv => 64,
            Recipe::Cmac | Recipe::HkdfPrf | Recipe::CmacPrf => 32,
        }
    }

    /// The type URL of the keys that it makes.
    pub fn url(&self) -> &'static str
        ensures { result.now ≡ url_of_type (type_made (seen self.now)) }
    {
        self.key_type().url()
    }
}

/// The row at this place.
fn row_at(rows: &[TemplateRow], place: usize) -> TemplateRow
    requires within { place < length rows.now }
    ensures { Some (seen_row result) ≡ slice_get (map seen_row rows.now) place }
{
    rows[place]
}

/// The type of the keys that a recipe makes.
fn type_by(recipe: Recipe) -> KeyType
    ensures { result ≡ type_of (made_by recipe []) }
{
    match recipe {
        Recipe::Gcm(_) => KeyType::AesGcm,
        Recipe::Eax(_) => KeyType::AesEax,
        Recipe::CtrHmac(_, _) => KeyType::AesCtrHmac,
        Recipe::Siv => KeyType::AesSiv,
        Recipe::Hmac(_, _, _) => KeyType::Hmac,
        Recipe::Cmac => KeyType::AesCmac,
        Recipe::HkdfPrf => KeyType::HkdfPrf,
        Recipe::HmacPrf(_, _) => KeyType::HmacPrf,
        Recipe::CmacPrf => KeyType::CmacPrf,
        Recipe::GcmStream(_, _) => KeyType::GcmStream,
        Recipe::CtrStream(_, _) => KeyType::CtrStream,
        Recipe::GcmSiv(_) => KeyType::AesGcmSiv,
    }
}

/// The template of this row, counted from 0; `None` if and only if there are no more than `row`. No
/// memory is taken.
pub fn template_at(row: usize) -> Option<Template>
    ensures { option_map seen result ≡ slice_get templates row }
{
    if row < TEMPLATE_COUNT {
        Some(Template { row })
    } else {
        None
    }
}

/// Why a name gives no template.
#[derive(Clone, Copy, Debug, PartialEq, Eq)]
pub enum TemplateFault {
    /// A template of Tink for asymmetric keys has this name.
    Asymmetric,
    /// No known template has this name.
    Unknown,
}

/// The template of this name. No memory is taken.
///
/// `Asymmetric` comes if and only if one of ten templates of Tink for asymmetric keys has the name,
/// and `Unknown` if and only if neither these nor the table have it.
pub fn template_named(name: &str) -> Result<Template, TemplateFault>
    ensures { FindsTemplate name.now result }
{
    for row in 0..TEMPLATE_COUNT {
        if let Some(template) = template_at(row) {
            if template.name() == name {
                return Ok(template);
            }
        }
    }
    if is_asymmetric(name) {
        Err(TemplateFault::Asymmetric)
    } else {
        Err(TemplateFault::Unknown)
    }
}

/// Whether one of Tink's templates for asymmetric keys has this name.
fn is_asymmetric(name: &str) -> bool
    ensures { result ≡ is_asymmetric name.now }
{
    name == "ECDSA_P256"
        || name == "ECDSA_P384"
        || name == "ECDSA_P521"
        || name == "ED25519"
        || name == "ECIES_P256_HKDF_HMAC_SHA256_AES128_GCM"
        || name == "ECIES_P256_HKDF_HMAC_SHA256_AES128_CTR_HMAC_SHA256"
        || name == "RSA_SSA_PKCS1_3072_SHA256_F4"
        || name == "RSA_SSA_PKCS1_4096_SHA512_F4"
        || name == "RSA_SSA_PSS_3072_SHA256_SHA256_32_F4"
        || name == "RSA_SSA_PSS_4096_SHA512_SHA512_64_F4"
}

/// The template's key with the key material `random`, `random_len` bytes long. An AES-CTR key comes
/// before its HMAC key.
pub fn make_key(alloc: Global, template: &Template, random: &[u8]) -> Result<KeyKind, NoMemory>
    requires size { length random.now ≡ random_of (seen template.now) }
    ensures { IfOk result (λ key. key ≡ made (seen template.now) random.now) }
{
    match template.row().recipe {
        Recipe::CtrHmac(size, tag_size) => make_ctr_hmac(alloc, size, tag_size, random),
        recipe => Ok(make_single(alloc, recipe, Bytes::copy(alloc, random)?)),
    }
}

/// The key of an AesCtrHmacAeadKey template: an AES-CTR key of this size, then an HMAC key.
fn make_ctr_hmac(
    alloc: Global,
    size: u32,
    tag_size: u32,
    random: &[u8],
) -> Result<KeyKind, NoMemory>
    requires size { size ≤ length random.now }
    ensures { IfOk result (λ key. key ≡ made_by (CtrHmac size tag_size) random.now) }
{
    let (aes, mac) = random.split_at(size as usize);
    Ok(KeyKind::AesCtrHmac {
        aes: Bytes::copy(alloc, aes)?,
        iv_size: 16,
        hash: Hash::Sha256,
        mac: Bytes::copy(alloc, mac)?,
        tag_size,
    })
}

/// The key with this key value, of a template for keys with one key value.
fn make_single(alloc: Global, recipe: Recipe, key: Bytes) -> KeyKind
    requires single { (size tag_size : ℕ) → recipe ≢ CtrHmac size tag_size }
    ensures { result ≡ made_by recipe key }
{
    match recipe {
        Recipe::Gcm(_) => KeyKind::AesGcm { key },
        Recipe::Eax(_) => KeyKind::AesEax { key, iv_size: 16 },
        Recipe::CtrHmac(_, _) => unreachable!(),
        Recipe::Siv => KeyKind::AesSiv { key },
        Recipe::Hmac(_, hash, tag_size) => KeyKind::Hmac {
            key,
            hash,
            tag_size,
        },
        Recipe::Cmac => KeyKind::AesCmac { key, tag_size: 16 },
        Recipe::HkdfPrf => KeyKind::HkdfPrf {
            key,
            hash: Hash::Sha256,
            salt: Bytes::own(Vec::new(alloc)),
        },
        Recipe::HmacPrf(_, hash) => KeyKind::HmacPrf { key, hash },
        Recipe::CmacPrf => KeyKind::CmacPrf { key },
        Recipe::GcmStream(derived, segment) => KeyKind::GcmStream {
            key,
            segment,
            derived,
            hash: Hash::Sha256,
        },
        Recipe::CtrStream(derived, segment) => KeyKind::CtrStream {
            key,
            segment,
            derived,
            hash: Hash::Sha256,
            mac_hash: Hash::Sha256,
            tag_size: 32,
        },
        Recipe::GcmSiv(_) => KeyKind::AesGcmSiv { key },
    }
}
