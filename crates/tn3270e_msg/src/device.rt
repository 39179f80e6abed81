//! The device types that a host serves (RFC 1647, section 7.1).
ghost use Rattle.std.specs.Prelude.{◌≡◌};
ghost use Rattle.tn3270e_msg.specs.Device.{device_for, device_of, device_text, has_text, model_of};

use codes3270::Model;

/// The device type of a 3278 display, by its model, 2 to 5. `E` means that it has extended attributes.
#[derive(Clone, Copy, Debug, PartialEq, Eq)]
pub enum Device {
    /// IBM-3278-2.
    Model2,
    /// IBM-3278-2-E.
    Model2E,
    /// IBM-3278-3.
    Model3,
    /// IBM-3278-3-E.
    Model3E,
    /// IBM-3278-4.
    Model4,
    /// IBM-3278-4-E.
    Model4E,
    /// IBM-3278-5.
    Model5,
    /// IBM-3278-5-E.
    Model5E,
}

impl Device {
    const ALL: [Device; 8] = [
        Device::Model2,
        Device::Model2E,
        Device::Model3,
        Device::Model3E,
        Device::Model4,
        Device::Model4E,
        Device::Model5,
        Device::Model5E,
    ];

    /// The device type with this text, compared without regard to ASCII case. `None` if there is none.
    #[tactic(auto, unfolding(crate::specs::Device::device_of))]
    pub fn read(text: &[u8]) -> Option<Device>
        ensures { result ≡ device_of text.now }
    {
        Device::ALL
            .iter()
            .copied()
            .find(|device| device.has_text(text))
    }

    /// The device type that a terminal of this model requests: the one without extended attributes.
    pub fn of(model: Model) -> Device
        ensures value { result ≡ device_for model }
        ensures model { model_of result ≡ model }
    {
        match model {
            Model::M2 => Device::Model2,
            Model::M3 => Device::Model3,
            Model::M4 => Device::Model4,
            Model::M5 => Device::Model5,
        }
    }

    /// Its model. Types with and without extended attributes have the same model.
    pub fn model(self) -> Model
        ensures { result ≡ model_of self }
    {
        match self {
            Device::Model2 | Device::Model2E => Model::M2,
            Device::Model3 | Device::Model3E => Model::M3,
            Device::Model4 | Device::Model4E => Model::M4,
            Device::Model5 | Device::Model5E => Model::M5,
        }
    }

    /// The text of the device type, in upper case, such as `IBM-3278-2-E`.
    pub fn text(self) -> &'static [u8]
        ensures { result.now ≡ device_text self }
    {
        match self {
            Device::Model2 => b"IBM-3278-2",
            Device::Model2E => b"IBM-3278-2-E",
            Device::Model3 => b"IBM-3278-3",
            Device::Model3E => b"IBM-3278-3-E",
            Device::Model4 => b"IBM-3278-4",
            Device::Model4E => b"IBM-3278-4-E",
            Device::Model5 => b"IBM-3278-5",
            Device::Model5E => b"IBM-3278-5-E",
        }
    }

    /// Whether this is the device type's text, compared without regard to ASCII case.
    pub fn has_text(self, text: &[u8]) -> bool
        ensures { result ≡ has_text self text.now }
    {
        text.eq_ignore_ascii_case(self.text())
    }
}
